//! Answers by crews of passes, over shares of a segment's records.
//!
//! **The problem.** The records are cut into shares, and passes work at them. A share may be left out or read twice, an
//! answer joined in another order, a refusal lost; or a pass isn't gathered, and its number never comes back.
//!
//! **What comes to mind first** is a counter and one answer that all share: each worker takes the next record, and adds
//! what it finds. It fails. Of a caller's entries nothing can be said then but that they are some of all; a list that
//! all append to has its numbers in the order in which they came; and where one worker is refused, what the others have
//! added is neither a whole answer nor that of any run of records.
//!
//! **The idea.** Shares are cut before anything starts, and stand in one queue, from which each worker takes the next one
//! until it takes a stop. Of a query it keeps each answer with the share's number (`fm_workers_shares`); of a tally it
//! counts all of its shares in numbers of its own. `work_crew` takes all memory first, draws a pass for each worker, or
//! begins none; lets each work; gathers all of them in their order, whatever they answered; and only then are answers
//! joined. [`query_with`] joins them; behind its stop each pass of [`tally_with`] adds its counts to 256 longs that all
//! share, each in a visit with one Add, and the answer is the sum of the passes' own counts.
//!
//! **Why it is safe.** Workers share the pool and the queue, by whose rule each share is taken once. All entries of the
//! call are those of the drawn passes, and each share's answer is by Reads of one of them, so the answer is that of one
//! caller over the whole, for any number of workers and any order of their steps, where nobody else writes. A pass that
//! was known to be whole is whole again.
//!
//! **What is not promised.** Which worker takes which share, in which order entries of two workers come, and which
//! numbers are drawn. After a refusal, what the longs of a tally hold.
#![tactic(auto)]

mod adding;
mod counting;
mod counts;
mod crew;
mod printing;
mod query;
mod sharing;
mod tally;

pub use counts::Counts;
pub use printing::print_counts;
pub use query::{query_beside, query_with};
pub use tally::{is_tally, tally_with};
