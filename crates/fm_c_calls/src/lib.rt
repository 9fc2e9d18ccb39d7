//! Layouts, paths, queries, groups and texts for callers that have bytes and numbers alone, as those in C.
//!
//! **The problem.** C passes numbers, and slices as pointers and lengths: no layout, no list, no `Result`. And it keeps
//! to no contract, so none of its values may be one that a call rests on.
//!
//! **The idea.** Each call here takes bytes and puts what it finds into memory of its caller's: a first part, as far as
//! there is room, and how long the whole is. What came of it is a [`Report`]. A resolved path is plain numbers, a
//! [`Place`], which any number of threads may read; whoever calls by it is tested, not trusted.
//!
//! **Both sides.** `fm_c` exports each call under C's rules, in a line, with the clause that stands here.
//!
//! **Why it is safe.** Nothing is shared but what no call changes, and nothing is kept between two calls but a query behind a
//! [`Handle`], which one call has at a time. What a handle owns is proved by hand, in `handle.rt` and `loose.rt`.
//!
//! **What is not promised.** That the caller's pointers are good, that nobody changes the bytes meanwhile, and that a handle
//! that is asked or freed was made and hasn't been freed since. Pools
//! aren't offered: their calls may wait, and C has nothing to wait with.
#![tactic(auto)]

mod answering;
mod asking;
mod extent;
mod groups;
mod handle;
mod held;
mod laws;
mod loose;
mod numbers;
mod output;
mod place;
mod places;
mod printing;
mod reading;
mod report;
mod spot;
mod texts;
mod values;
mod whole;

pub use answering::{answer_over, put_answer, read_query};
pub use asking::{ask_query, free_query, make_query};
pub use extent::{Extent, measure};
pub use groups::{Counted, put_groups};
pub use handle::Handle;
pub use laws::{places_lead_inside, reports_say_refusals};
pub use numbers::put_numbers;
pub use place::{Place, Stride, put_place};
pub use places::list;
pub use printing::put_report;
pub use report::Report;
pub use spot::{Within, find_at};
pub use texts::put_texts;
