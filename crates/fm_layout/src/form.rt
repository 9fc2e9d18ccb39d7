use fm_lanes::{Order, ValueKind};

/// What a layout is, and how many elements or members it has.
#[derive(Clone, Copy, Debug, PartialEq, Eq)]
pub enum Form {
    Value(ValueKind, Order),
    Padding,
    /// So many elements, one after the other.
    Sequence(u64),
    /// So many members, one after the other.
    Struct(u64),
    /// So many members, each at the start.
    Union(u64),
}
