//! The steps of a path into a layout, and the texts that spell them.
#![tactic(auto)]

mod name_text;
mod parse;
mod part;
mod sign;
mod step;

pub use name_text::NameText;
pub use parse::parse_path;
pub use part::{Move, Part};
pub use sign::Sign;
pub use step::PathStep;
