//! Groups of numbers: each number that comes, and how often.
//!
//! [`Groups::of`] sums pairs of a number and a count up by their numbers. Laws say that there is one such answer, and
//! that it tells how often each number comes where the counts are those of places at which numbers were counted.
#![tactic(auto)]

mod groups;
mod laws;
mod sums;

pub use groups::Groups;
pub use laws::{groups_are_one, settled_are_groups, sums_are_one};
