/// Who runs a line of a script.
#[derive(Clone, Copy, Debug, PartialEq, Eq)]
pub enum Who {
    /// Pass 0, before the workers.
    First,
    /// The worker of this number, 1 to 16.
    Worker(u32),
    /// Pass 0, once the workers are gathered.
    Last,
}
