/// What the visit of a mark found.
#[derive(Clone, Copy, Debug, PartialEq, Eq)]
pub enum Visit {
    /// The mark doesn't name the arena; the next one is to be visited.
    Next,
    /// The mark of the pass with this number names the arena.
    Inside(u32),
    /// The mark was the last one, and doesn't name the arena: the arena has ended.
    Ended,
}
