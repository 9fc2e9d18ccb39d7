use std::collections::LinkedList;

/// Whose a turn is.
pub enum Role {
    /// Who makes and absorbs the other turns.
    Owner,
    User,
    /// A user's that was absorbed.
    Spent,
}

/// What a turn pushed and took. No value of it is made: it is what contracts know of a turn.
pub struct Account<T> {
    pub role: Role,
    /// How many turns it made that it hasn't absorbed.
    pub out: u64,
    /// The jobs that it pushed, in order, and those of the turns that it absorbed.
    pub pushed: LinkedList<T>,
    /// The jobs that it took, likewise.
    pub taken: LinkedList<T>,
}
