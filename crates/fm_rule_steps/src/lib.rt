//! Each kind of step of a pass keeps the pool's facts, and tells the pass what others did. Lemmas alone.
#![tactic(auto)]
