use boxcar::tag::{Names, Tag};
use fm_base::ArenaId;

/// The words of a vector, for a tag.
pub struct Words;

impl Names<Vec<u64>> for Words {
    ghost numbers = { λ words. words.items };
}

/// One arena, with words up to its last given byte.
///
/// Its words are freed when it ends. What they were then only proofs know: a tag has no bytes.
#[derive(Drop)]
pub struct MonoArena {
    pub id: ArenaId,
    pub is_alive: bool,
    pub given: u64,
    pub words: Vec<u64>,
    pub past: Tag,
}
