use std::collections::LinkedList;

/// Whose a turn is.
pub enum Role {
    /// Who pushes the jobs, and makes and absorbs the other turns.
    Giver,
    Taker,
    /// A taker's that was absorbed.
    Spent,
}

/// What a turn pushed and took. No value of it is made: it is what contracts know of a turn.
pub struct Account {
    pub role: Role,
    /// How many turns it made that it hasn't absorbed.
    pub out: u64,
    /// The jobs that it pushed, in order.
    pub pushed: LinkedList<u32>,
    /// How many stops it pushed.
    pub stops: u64,
    /// The jobs that it took, in order, and those that the turns took which it absorbed.
    pub taken: LinkedList<u32>,
    /// How many stops it took, likewise.
    pub ended: u64,
}
