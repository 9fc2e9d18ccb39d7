use fm_lanes::{Order, ValueKind};

/// What an access needs of the value layout that a path ends at.
#[derive(Clone, Copy, Debug, PartialEq, Eq)]
pub struct ValueSpec {
    pub kind: ValueKind,
    pub order: Order,
    /// In bytes, a power of two.
    pub alignment: u64,
}
