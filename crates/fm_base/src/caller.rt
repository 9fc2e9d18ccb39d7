/// A caller of a memory: a number, and the term in which it has that number.
///
/// The only caller of a memory is number 0 of term 0.
#[derive(Clone, Copy, Debug, PartialEq, Eq)]
pub struct Caller {
    pub number: u32,
    pub term: u32,
}
