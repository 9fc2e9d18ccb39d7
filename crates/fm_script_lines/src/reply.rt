use fm_base::Refusal;

/// What a line of a script is answered.
#[derive(Clone, Copy, Debug, PartialEq, Eq)]
pub enum Reply {
    Fine,
    /// The place of the first byte that was allocated.
    Place(u64),
    Number(i64),
    Truth(bool),
    /// Other handles are left.
    Kept,
    /// The handle was the last one, and the arena has ended.
    Ended,
    Refused(Refusal),
    /// A name that the line uses stands for nothing, so no call was made.
    Skipped,
}
