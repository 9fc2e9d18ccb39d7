//! What a pass of a pool knows, what a step does to it, and the facts that the pool keeps between any two steps.
#![tactic(auto)]

mod slot;
mod step;

pub use slot::Slot;
pub use step::Step;
