//! Tests alone: of a pool's gate, and of closing its arenas.
#![tactic(auto)]

#[cfg(test)]
mod tests;
