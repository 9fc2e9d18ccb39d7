//! Reports of scripts: what each line was answered, and the bytes of the arenas that are alive at the end.
#![tactic(auto)]

mod alive;
mod arena;
mod given;
mod laws;
mod line;
mod lines;
mod printing;
mod report;

pub use arena::AliveArena;
pub use given::Given;
pub use laws::living_arenas_fit;
pub use line::ReportLine;
pub use lines::report_lines;
pub use printing::print_report;
pub use report::Report;
