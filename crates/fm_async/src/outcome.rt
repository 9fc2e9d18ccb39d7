use crate::closer::Closer;
use fm_base::Refusal;
use fm_rule::Pass;

/// What became of the start of a close.
pub enum Start<'p> {
    /// The arena was shut.
    Begun(Closer<'p>),
    /// It wasn't, and the pass comes back.
    Refused(Pass, Refusal),
}

/// There was no memory for a set of closes, and the pass comes back.
#[derive(Drop)]
pub struct NoMemory {
    pub pass: Pass,
}
