use fm_arena::Shared;

/// A pass of a crew, and what it does.
pub(crate) struct Worker<'a, T> {
    pub(crate) memory: Shared<'a>,
    pub(crate) task: T,
    /// Workers stand in one list, and each visit stores in its worker: 128 bytes of nothing keep the next one off its
    /// cache lines, which two processors would else take from each other.
    pub(crate) gap: [u64; 16],
}
