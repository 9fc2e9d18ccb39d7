//! What all counts in one table come to, whoever made them and however their steps came between each other: the groups
//! of all numbers, which who reads the table then answers; and that a table with a place for each value is never found
//! full.
#![tactic(auto)]

mod laws;

pub use laws::{counts_are_groups, groups_are_read, never_full, read_as_it_stands, read_by_itself};
