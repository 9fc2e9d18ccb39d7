//! Tests alone: visits over one thread, over a pool, and over a double whose arenas another caller uses too.
#![tactic(auto)]

#[cfg(test)]
mod tests;
