//! The places of a layout, and what following a path through them means.
#![tactic(auto)]

mod dim;

pub use dim::Dim;
