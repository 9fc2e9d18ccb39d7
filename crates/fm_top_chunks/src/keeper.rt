use fm_base::{ArenaId, Refusal};
use fm_records::Answer;
use fm_workers_chunks::{Desk, Job, Served, Terms};
use fm_workers_queue::Turn;

/// What came of a chunk.
#[derive(Drop)]
pub struct Back {
    pub number: u64,
    pub arena: ArenaId,
    pub count: u64,
    pub answer: Result<Answer, Refusal>,
}

/// What the first pass has at a desk: its turns, how many chunks it gave away that didn't come back, and what came of the
/// others, in the order in which they came.
pub struct Keeper<'a, K: Terms> {
    pub desk: Desk<'a, K>,
    pub giving: Turn<Job>,
    pub taking: Turn<Served>,
    pub out: u64,
    pub back: Vec<Back>,
}
