//! Tests alone: the codings and places of a pool's words, the steps of a pass, and the pages of arenas.
#![tactic(auto)]

#[cfg(test)]
mod tests;
