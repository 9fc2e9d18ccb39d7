//! Names of arenas, refusals, the one-thread machine and the trait [`Memory`], over which every layer above is written.
//!
//! **The problem.** Several callers use an arena, and one of them may close it while another is inside. What a call
//! finds then depends on what others do, so no contract can say it by the state before the call.
//!
//! **The idea.** One machine says what each call does, as if one thread made all of them: entries of a history, in one
//! order, each a call of one caller with the machine's reply. A call of a `Memory` says which entries are its caller's
//! own and what they found; entries of others may stand before, between and after them. Only a caller that is by
//! itself, since no other exists or it has gathered every other, is told which state its call leaves.
//!
//! **Both sides.** A memory has to show of each call that its entries are legal where they stand. Who writes code over
//! a `Memory`, as for segments, handles and queries, may rely on just that, so what is proved of it holds over each
//! memory.
//!
//! **Why it is safe.** The machine lets nobody into an arena that was shut, and ends one only where nobody is under way
//! in it; so nobody is, nor comes in, after its end (`shuts_for_good`, `ends_for_good`). What an arena gave lies apart (`places_apart`),
//! was 0 before (`gives_zeros`), and a byte changes only by an entry that doesn't spare it (`spared_stays`).
//!
//! **What is not promised.** In which order entries of two callers come; that an arena which was just opened isn't shut
//! already where others exist; that a call which takes a runtime returns.
#![tactic(auto)]

mod arena_id;
mod caller;
mod kind;
mod laws;
mod memory;
mod refusal;
mod rounding;

pub use arena_id::ArenaId;
pub use caller::Caller;
pub use kind::Kind;
pub use laws::{
    adds_by_callers, adds_count, always_keeps_faith, ends_for_good, gives_zeros, looks_up,
    places_apart, shuts_for_good, spared_is_found, spared_stays, stays_alive, stays_for_ever,
    stays_whole, zero_past_given,
};
pub use memory::Memory;
pub use refusal::{OrRefused, Refusal};
pub use rounding::round_up;
