//! Scripts: lines that name memory calls, who makes each, and the names that they make and use.
#![tactic(auto)]

mod cell;
mod close_by;
mod command;
mod cutting;
mod knowing;
mod laws;
mod line;
mod maker;
mod names;
mod parse;
mod pool_line;
mod reading;
mod script;
mod sources;
mod thing;
mod using;
mod who;
mod words;

pub use cell::Cell;
pub use close_by::CloseBy;
pub use command::Command;
pub use fm_base_text::Text;
pub use laws::each_text_has_one_answer;
pub use line::Line;
pub use parse::parse_script;
pub use script::Script;
pub use thing::{Role, Thing};
pub use who::Who;
