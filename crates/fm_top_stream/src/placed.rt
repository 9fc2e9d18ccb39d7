use fm_base::ArenaId;
use fm_top_load::Reached;

/// A chunk that stands at the start of an open arena of its own.
#[derive(Clone, Copy)]
pub(crate) struct Placed {
    pub(crate) arena: ArenaId,
    pub(crate) chunk: Reached,
}
