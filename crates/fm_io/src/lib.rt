//! Where the tool's bytes come from and go to: files, a sink, and the gate that workers pass.
//!
//! **The problem.** What a file holds and whether a write succeeds is the host's, and no contract can promise it. But a
//! tool that answers "failed read" for every input would keep every promise that leaves failures free.
//!
//! **The idea.** A source of files and a sink may tell what they hold, and count their faults. So a caller's contract
//! can say that a fault is answered only where the object that was handed in had one, and that every other answer is by
//! the bytes that the files have.
//!
//! **Both sides.** An implementation ([`HostFiles`], [`HostSink`], and those in memory) has to count each fault, and
//! nothing else. Code that is generic over them can't raise the count by itself, and where reads are told can't hide
//! one.
//!
//! **Why it is safe.** [`fill`] and [`write_text`] go on piece by piece, in whatever pieces the host gives or takes:
//! what was read is the file's bytes from the place on, what was written is a prefix of the text, the whole of it
//! unless a fault came or memory was wanting.
//!
//! **What is not promised.** What the host does: that a name leads to the same file twice, that bytes which were taken
//! reach a disk. Nor that a pass of a [`Gate`] returns: it may wait, which tests use to let workers meet.
#![tactic(auto)]

mod count;
mod failing;
mod fault;
mod files;
mod gate;
mod host_files;
mod host_sink;
mod host_system;
mod listed_files;
mod mem_files;
mod mem_sink;
mod reading;
mod sending;
mod sink;
mod sure_files;
mod sure_sink;
mod system;
mod turns;
mod writing;

pub use fault::Fault;
pub use files::{Files, Piece};
pub use gate::{FreeGate, Gate};
pub use host_files::HostFiles;
pub use host_sink::HostSink;
pub use host_system::HostSystem;
pub use mem_files::MemFiles;
pub use mem_sink::MemSink;
pub use reading::{ReadFault, fill};
pub use sending::{PIECE, send_piece, send_rest};
pub use sink::Sink;
pub use sure_files::SureFiles;
pub use sure_sink::SureSink;
pub use system::{System, Way};
pub use turns::{AtGate, Turns};
pub use writing::write_text;
