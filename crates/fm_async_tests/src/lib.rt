//! Tests alone: of closing arenas by polls.
#![tactic(auto)]

#[cfg(test)]
mod tests;
