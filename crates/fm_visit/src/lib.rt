//! Many accesses of an arena in one visit.
//!
//! **The problem.** Each access of a segment is a visit: it enters the arena, reads or puts a piece, and leaves. Where a
//! caller reads a hundred values in a row, most of its time goes to coming in and going out.
//!
//! **The idea.** Come in once, act as often as need be, and leave. The plain calls ([`get_word`], [`set`], [`copy`] and the
//! like) ask that their caller is inside the segment's arena. A [`Visit`] is a value that says so when it runs: it is
//! made by entering, has the arena's name alone, and has to be spent by leaving. [`within`] does a caller's [`Work`] in
//! one visit.
//!
//! ```
//! let visit = Visit::enter(&mut memory, s.arena())?;
//! let first = visit.get_word(&mut memory, &s, 0);
//! let rest = visit.get_words(&mut memory, &s, 8, &mut words);
//! visit.leave(&mut memory);
//! ```
//!
//! **Why it is safe.** Who is inside an arena finds it alive until it leaves: no call here is refused as `Closed` or
//! `WrongThread`. No other call of the memory can be made meanwhile, since each of them asks for a caller that is
//! outside.
//!
//! **What is not promised.** That several acts are one step: others may write between two of them. And **a close waits
//! for the visit**, so a long visit holds up who closes the arena.
#![tactic(auto)]

mod bytes;
mod handle;
mod number;
mod range;
mod sides;
mod value;
mod visit;
mod whole;
mod words;
mod work;

pub use bytes::{get_bytes, put_bytes};
pub use handle::{compare_and_exchange, compare_and_set, get_and_add, get_by, set_by};
pub use range::fill;
pub use sides::{copy, mismatch};
pub use value::{get, set};
pub use visit::Visit;
pub use whole::{compare_and_exchange_long, get_and_add_long, set_long};
pub use words::{get_word, get_words, put_words, set_word};
pub use work::{Work, within};
