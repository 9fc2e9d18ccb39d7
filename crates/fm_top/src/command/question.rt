/// What is asked of the records of a file.
#[derive(Clone, Copy, PartialEq, Eq)]
pub enum Question {
    /// What a query answers over them.
    Query,
    /// The same, of a file of any length, through a pool of fixed size.
    Stream,
    /// How often each number comes among the values of a path, which are bytes or booleans.
    Tally,
}
