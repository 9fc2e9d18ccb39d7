//! Tests alone: slices and texts over one thread, over a pool, and over memories that another pass uses too.
#![tactic(auto)]

#[cfg(test)]
mod tests;
