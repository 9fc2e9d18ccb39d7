//! Segments: runs of bytes of an arena, with slices that can't pass their bounds (`MemorySegment`, JEP 454, Java SE
//! 22).
//!
//! **The problem.** An access by a bare place can reach bytes of somebody else, or of an arena that has ended, or wrap
//! past the end of all places.
//!
//! **The idea.** A segment says which bytes are meant: it has an arena, the place of its first byte there, a size in
//! bytes, and whether writes through it are refused. It holds no memory. An access tests bounds and alignment first,
//! and then goes to the arena through a `Memory`, one visit after another, each to bytes of one word. So a closed arena
//! is found closed by the visit itself, and nothing has to be told to the segment.
//!
//! The prices in an array of records of 24 bytes, each price 8 bytes from its record's start:
//!
//! ```
//! for record in segment.elements(&sale)? {
//!     let price = record.as_slice_aligned(8, 8, 8)?;
//!     ..
//! }
//! ```
//!
//! **Why it is safe.** A slice has the same arena and smaller bounds, and the slice of a read-only segment is
//! read-only. No sum wraps: bounds are tested first, and every segment ends by place 2^40.
//!
//! **What is not promised.** That an access of several words is one step: others may write between two visits, or close
//! the arena, and then the words before stay as they were put. An alignment is that of a byte's place in its arena, and
//! not of its offset in the segment. No call takes memory.
#![tactic(auto)]

mod alignment;
mod elements;
mod laws;
mod segment;

pub use alignment::is_aligned;
pub use elements::Elements;
pub use laws::sets_then_gets;
pub use segment::{Segment, answer_of, check_copy, coding_of};
