//! Tests alone: the texts of records, where they stand, and what is printed of them.
#![tactic(auto)]

#[cfg(test)]
mod tests;
