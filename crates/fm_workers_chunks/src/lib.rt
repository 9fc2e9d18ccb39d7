//! Chunks of records that stand in arenas of their own, as jobs: a worker meets a chunk's note, answers a query over the
//! chunk, closes its arena, and gives the answer back with a note of its own.
//!
//! - **chunk**: records at the start of an open arena, and a note of the pass that put them there, made when all stood.
//! - **served**: a chunk that was answered over and whose arena was closed, or where that was refused; and a note of who
//!   did that.
//! - **terms**: what a queue's chunks promise: of which pool their notes are, by which query they are answered, and what
//!   stands in their arenas by then.
//! - **desk**: the two queues, of jobs and of what was served.
//!
//! A worker wipes what it closes, so that wiping stands beside filling. Whether others write where it reads isn't known
//! here: what it did is told by its own entries, all of them behind what the note had seen.
#![tactic(auto)]

mod answering;
mod chunk;
mod crew;
mod desk;
mod job;
mod served;
mod serving;
mod taking;
mod terms;

pub use chunk::Chunk;
pub use crew::Serving;
pub use desk::{Desk, Server};
pub use job::Job;
pub use served::Served;
pub use serving::serve_chunk;
pub use taking::serve_chunks;
pub use terms::{Promised, Terms};
