//! What a call of a pass does: the steps that it is made of put together.
//!
//! Definitions (`specs/Kept.antt`) and lemmas (`proofs/`) without code, for the crates whose calls are made of steps.
#![tactic(auto)]
