/// What became of an automatic arena when a handle of it was given back.
#[derive(Clone, Copy, Debug, PartialEq, Eq)]
pub enum GaveBack {
    /// Other handles are left.
    Kept,
    /// It was the last one, and the arena has ended.
    Ended,
}
