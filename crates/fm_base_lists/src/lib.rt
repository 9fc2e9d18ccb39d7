//! Lists: what stands in one, and what holds of each of its elements, as definitions and lemmas. There is no code here.
#![tactic(auto)]
