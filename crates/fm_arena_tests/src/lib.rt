//! Tests alone: bodies that run over every memory, the tests of `Mono`, and of accesses, copies, segments and handles over
//! it alone, and those of a pool's arenas as a memory. Calls stand in tables, beside what they are answered.
#![tactic(auto)]

#[cfg(test)]
mod tests;
