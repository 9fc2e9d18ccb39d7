//! Tests alone: values and count tables over one thread.
#![tactic(auto)]

#[cfg(test)]
mod tests;
