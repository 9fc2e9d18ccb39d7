use fm_base::{ArenaId, Refusal};
use fm_records::Answer;
use fm_rule::Note;

/// A chunk that a worker answered over, and whose arena it closed; or the refusal that kept it from that.
#[derive(Drop)]
pub struct Served {
    pub number: u64,
    pub arena: ArenaId,
    pub count: u64,
    pub answer: Result<Answer, Refusal>,
    /// What the worker had seen behind that.
    pub note: Note,
}
