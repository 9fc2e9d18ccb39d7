//! Jobs of any kind in one queue, pushed while others take them, each of which is taken once.
//!
//! A job is a value that its taker gets: a chunk with a note, or what came of one. What each job of a queue promises (that
//! its note is of this pool, say) its pusher has to know, and its taker learns.
//!
//! - **turn**: what one thread pushed and took. It has no bytes; the first one, the owner's, comes with the queue, and the
//!   others are made of it, and absorbed by it again. Each turn may push and take.
//!
//! Not promised: which taker gets which job, or how many; that a call ends which waits for room or for a job.
#![tactic(auto)]

mod account;
mod fair;
mod promise;
mod pushing;
mod queue;
mod settling;
mod taking;
mod turning;

pub use account::{Account, Role};
pub use promise::Promise;
pub use queue::{Queue, Turn};
