//! Memories for tests of code that is written for any `Memory`: a double whose arenas more callers use, and a pass of a
//! pool beside which another closes an arena.
#![tactic(auto)]

mod double;
mod heard;
mod interrupted;
mod others;

pub use double::Double;
pub use heard::Heard;
pub use interrupted::Interrupted;
pub use others::Others;
