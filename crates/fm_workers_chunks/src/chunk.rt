use fm_base::ArenaId;
use fm_rule::Note;

/// Records that stand at the start of an open arena.
#[derive(Drop)]
pub struct Chunk {
    /// Which chunk of all it is.
    pub number: u64,
    pub arena: ArenaId,
    /// How many bytes it has.
    pub count: u64,
    /// What the pass that put it had seen then.
    pub note: Note,
}
