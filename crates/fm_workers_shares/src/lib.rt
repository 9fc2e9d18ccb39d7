//! Shares of a segment's records, which threads take as jobs, each share once, and what they make of them joined.
//!
//! - **share**: a run of the records, which has a number. All shares have as many records, but for the last.
//! - **taker**: who takes shares, one after the other, up to its stop or a refusal, and makes a part of the result.
//! - **job**: what takers do with a share, and behind their last one. A query's is here: it keeps each share's answer.
//! - **batch**: the queue with all shares and a stop for each taker, and the takers.
//! - **whole**: what the parts of all takers are joined to.
#![tactic(auto)]

mod answers;
mod batch;
mod finishing;
mod job;
mod joining;
mod shares;
mod slots;
mod taker;
mod taking;

pub use answers::{Answers, Done};
pub use batch::Batch;
pub use finishing::{Whole, finish};
pub use job::Job;
pub use shares::{Shares, records_of};
pub use slots::Slots;
pub use taker::Taker;
pub use taking::take_shares;
