//! The text of groups: a line for each number, with how often it comes, and how many there are.
#![tactic(auto)]

mod printing;

pub use printing::print_groups;
