//! Slices of a segment that are given in a row, and texts that end with a byte 0 (`SegmentAllocator`, `setString` and
//! `getString` of Java SE 22).
//!
//! **The problem.** Who cuts one allocation into many counts sizes and alignments by hand, and two parts may share a
//! byte. And a name in a record says nowhere how long it is: it ends at a byte 0, which may be missing.
//!
//! **The idea.** A [`SlicingAllocator`] has a segment, and counts how many of its bytes are behind: each slice begins
//! at the next place that fits its alignment, and where it ends the next one may begin. A [`PrefixAllocator`] gives the
//! first bytes anew with each call. A text is put with its 0 as one run of pieces ([`set_text`]), and read piece by
//! piece up to the first one with a 0 ([`get_text`]); [`allocate_text`] gives it a segment of just its bytes.
//!
//! ```
//! let mut fields = SlicingAllocator::over(record);
//! let number = fields.allocate(4, 4)?;
//! let name = fields.allocate(16, 1)?;
//! set_text(&rt, &mut memory, &name, 0, "Ada")?;
//! let found = get_text(rt.alloc(), &mut memory, &name, 0)?;
//! ```
//!
//! **Why it is safe.** No slice passes the segment's end or shares a byte with another, over every list of calls
//! ([`slices_lie_apart`]), and no sum wraps. A text is found only in its segment: with no 0 in it there is none. A
//! caller by itself gets the text of all the bytes there.
//!
//! **What is not promised.** That a text is one step: others may write between two pieces, or close the arena, and then
//! the pieces before stay as they were put. What [`get_text`] answers is then the text of the bytes that it read. It
//! alone takes memory of its own, for its answer.
#![tactic(auto)]

mod allocation;
mod laws;
mod prefix;
mod reading;
mod slicing;
mod texts;
mod zero_ended;

pub use allocation::allocate_text;
pub use laws::slices_lie_apart;
pub use prefix::PrefixAllocator;
pub use slicing::SlicingAllocator;
pub use texts::{get_text, set_text};
