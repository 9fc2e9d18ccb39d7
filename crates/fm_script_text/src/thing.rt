/// What a name stands for.
#[derive(Clone, Copy, Debug, PartialEq, Eq)]
pub enum Thing {
    Arena,
    /// An automatic arena, which is its first handle too.
    Automatic,
    Segment,
    Hold,
    Handle,
}

/// What a line uses a name as.
#[derive(Clone, Copy, Debug, PartialEq, Eq)]
pub enum Role {
    Arena,
    Segment,
    Hold,
    Handle,
}
