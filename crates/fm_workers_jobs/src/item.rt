/// What stands in the queue.
#[derive(Clone, Copy, Debug, Drop, PartialEq)]
pub enum Item {
    Job(u32),
    /// A taker ends here.
    Stop,
}
