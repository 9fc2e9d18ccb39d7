//! Tests alone: refusals, values in bytes, layouts, their JSON, paths into them, queries over records, and records that
//! are made.
#![tactic(auto)]

#[cfg(test)]
mod tests;
