//! The gate of a pool's arenas: a pass enters one, acts on its words, and leaves it, while others may close it.
//!
//! **The problem.** A closer must not end an arena while a pass is inside, and no pass may come into one that has
//! ended.
//!
//! **The reader's side.** [`enter`] publishes the arena in the pass's mark, and only then looks whether it lives;
//! [`leave`] clears the mark after the last act. An act finds its word by the map word of the word's part; [`allocate`]
//! sees to it that each part of a range has a page before it gives its bytes.
//!
//! **The closer's side** is `fm_close`: it shuts the arena, and only then looks at the marks.
//!
//! **Why it is safe.** Both write first and look second, so at most one of them can miss the other; and the entry of
//! each call says which of the two it was. While a pass is inside, a map word that it has read stands. A [`Hold`] or a
//! handle keeps the arena alive: who has one is never refused `Closed`.
//!
//! **What is not promised.** That an arena is still alive after [`is_alive`] was true, without a hold. That a call
//! which takes a runtime returns: it tries again while other passes change the same word; the others wait for nobody.
//! That nothing stays of an [`allocate`] that was refused with `PoolFull`: the arena may keep pages that it got.
//!
//! No call takes memory. Where a call is refused the pass stands where it stood: outside, without a mark, but for
//! [`again`], which may be called inside.
#![tactic(auto)]

mod acting;
mod alive;
mod allocating;
mod entering;
mod handling;
mod held;
mod holding;
mod laws;
mod leaving;
mod opening;
mod patching;
mod reaching;

pub use acting::{add, load, load_at, load_placed, store, store_at, store_placed, swap_if};
pub use alive::is_alive;
pub use allocating::allocate;
pub use entering::enter;
pub use fm_pages::Maker;
pub use handling::{a_handle_lasts, again};
pub use held::Hold;
pub use holding::{hold, unhold};
pub use laws::{a_crew_stands, a_hold_stands, both_holds_stand};
pub use leaving::leave;
pub use opening::open_arena;
pub use patching::patch;
