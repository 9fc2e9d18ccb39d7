//! Lines of scripts as calls of a pass: what each asks of a pool's arenas, its reply, and what its name stands for.
//!
//! A line works on what the names that it uses stand for. Where one stands for nothing, since its own line was refused
//! or skipped, the line makes no call.
#![tactic(auto)]

mod accesses;
mod arenas;
mod blocks;
mod bound;
mod laws;
mod line;
mod numbers;
mod ordering;
mod outcome;
mod playing;
mod reply;
mod returns;
mod segments;
mod settling;
mod standing;
mod table;
mod tokens;
mod updates;
mod values;

pub use bound::Bound;
pub use laws::{admitted_lines_leave_nothing, settled_lines_are_a_memorys};
pub use line::run_line;
pub use numbers::Numbers;
pub use ordering::{LinesInOrder, count_lines, in_order};
pub use outcome::LineOutcome;
pub use playing::play;
pub use reply::Reply;
pub use standing::Standing;
pub use table::Table;
