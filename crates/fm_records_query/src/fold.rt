/// What an item asks of the values of its path in the chosen records.
#[derive(Clone, Copy, Debug, PartialEq, Eq)]
pub enum Fold {
    Sum,
    Least,
    Greatest,
    /// Each of them, in their order.
    All,
}
