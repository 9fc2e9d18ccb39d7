mod cells;
mod ranges;

pub use cells::visited;
pub use ranges::{visit_copies, visit_fills, visit_mismatches};
