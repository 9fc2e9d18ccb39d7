/// What an index of a path does to the offset.
#[derive(Clone, Copy, Debug, PartialEq, Eq)]
pub struct Dim {
    /// The bytes from one index to the next.
    pub stride: i64,
    /// How many indices there are, from 0.
    pub bound: u64,
}
