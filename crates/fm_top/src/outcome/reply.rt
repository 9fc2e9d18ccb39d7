use crate::outcome::left::Left;
use crate::outcome::output::Output;

/// The answer of a run: all that it prints, and what it leaves.
#[derive(Drop)]
pub struct Reply {
    pub text: Output,
    pub left: Left,
}
