/// What is printed of the layout that a file has.
#[derive(Clone, Copy, PartialEq, Eq)]
pub enum LayoutText {
    /// What stands where in it.
    Places,
    /// Its JSON in the version that may name types.
    Json,
}
