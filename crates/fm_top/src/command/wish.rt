use crate::command::question::Question;

/// What a user wishes to know of the records of a file.
#[derive(Clone, Copy, PartialEq, Eq)]
pub enum Wish {
    /// What a pool answers, with so many threads.
    Answer(Question, u64),
    /// How often each number comes among the values of a path, which are of any kind, counted by so many threads.
    Group(u64),
    /// The text that each of them has in a field.
    Texts,
}
