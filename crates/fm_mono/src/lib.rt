//! The arenas of one thread: an implementation of `Memory` over vectors of words, which never waits.
//!
//! **The problem.** Most arenas are used by one thread. A pool's words and marks are of no use to it, but code for
//! segments, handles and queries is to be the same.
//!
//! **The idea.** [`Mono`] has a vector of words for each arena, and its slot is its place in the list. `enter` notes
//! which arena it is in, acts go straight to the words, `leave` forgets it. An arena's words are taken as it gives
//! bytes, and freed when it ends.
//!
//! **Both sides** are the same caller: who closes can't be inside, since `close` asks for a caller that is outside.
//!
//! **Why it is safe.** The machine's arenas are shown by the fields, one by one, and there is nobody else: each call is
//! told as the state that it leaves. An arena that has ended stays in the list, so that its name never comes twice.
//!
//! **What is not promised.** That memory is there: `open_arena` and `allocate` may be refused for want of it. Arenas
//! without end: 4,294,967,295 can be opened, and then `NoSlot` comes. That a `Mono` can be used by two threads: it has
//! one caller.
#![tactic(auto)]

mod arena;
mod mono;

pub use mono::Mono;
