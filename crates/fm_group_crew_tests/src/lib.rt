//! Tests alone: groups by crews of passes.
#![tactic(auto)]

#[cfg(test)]
mod tests;
