/// How a close is gone on with until nobody is under way in its arena.
#[derive(Clone, Copy)]
pub enum CloseBy {
    /// By visits that wait: `close`.
    Visits,
    /// By a future that is polled: `closepoll`.
    Polls,
}
