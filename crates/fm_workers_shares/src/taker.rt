use fm_base::Refusal;
use fm_workers_jobs::Turn;

/// Who takes shares, up to its stop or a refusal.
#[derive(Drop)]
pub struct Taker<P> {
    /// Its number at the gate, from 1 on.
    pub number: u32,
    pub turn: Turn,
    /// What it made of its shares.
    pub part: P,
    /// The refusal at which it ended, if it was refused.
    pub end: Result<(), Refusal>,
}
