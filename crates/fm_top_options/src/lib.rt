//! The words of a command that has one option, `--threads`, and a number of positional words.
#![tactic(auto)]

mod command;
mod matched;
mod options;

pub use options::{Options, options_of};
