use crate::name_text::NameText;

/// One step of a path into a layout (`MemoryLayout.PathElement`, Java SE 22).
#[derive(Clone, Debug, Drop)]
pub enum PathStep {
    /// To the first member of this name of a struct or union.
    Name(NameText),
    /// To the member of this index, from 0, of a struct or union.
    Group(u64),
    /// To the element of this index, from 0, of a sequence.
    At(u64),
    /// To the element of an index that the access gives.
    Each,
    /// From the element of the first index by the second for each index that the access gives.
    EachFrom(u64, i64),
}
