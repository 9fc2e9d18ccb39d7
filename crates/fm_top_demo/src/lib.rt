//! Records that are made from their numbers, for a demonstration on input as large as one likes.
#![tactic(auto)]

mod records;

pub use records::{MOST_RECORDS, made_records};
