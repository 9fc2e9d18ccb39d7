//! Bytes, the words that they stand in and the numbers that they mean, as definitions and lemmas: there is no code here.
//!
//! `specs/` has the definitions, by division and remainder, little end first; `proofs/` ties them to one another.
#![tactic(auto)]
