//! The arenas of a pool that threads share, as a memory (`Arena`, JEP 454, Java SE 22).
//!
//! **The problem.** Segments, handles and queries are written once, over any `Memory`; but the calls of a pool are made
//! on a pass, and say what a pass had seen and found.
//!
//! **The idea.** Each thread has a pass of the pool, and a [`Shared`] of it: a `Memory` that tells the history as the
//! pass has seen it. An [`Arena`] allocates segments and closes, over any memory; an [`AutoHandle`] keeps an automatic
//! arena open.
//!
//! ```
//! let mut memory = Shared::new(&pool, pass);
//! let arena = Arena::start(&rt, &mut memory, Kind::Shared)?;
//! let sale = arena.allocate(&rt, &mut memory, 24, 8)?;
//! ..
//! arena.close(&rt, &mut memory)?;
//! ```
//!
//! **Both sides.** Who accesses enters and leaves at each word (`fm_gate`); who closes shuts, looks at every mark and
//! ends the arena (`fm_close`, or by polls `fm_async`). Neither knows of the other but by the pool's words.
//!
//! **Why it is safe.** Each call's entries are legal in the one history of the pool, whatever other passes do between,
//! so all that is proved over a `Memory` holds here. What is held is open (`what_is_held_is_open`).
//!
//! **What is not promised.** That [`Arena::close`] or a last [`AutoHandle::give_back`] returns while a pass stays
//! inside; that another pass knows of an arena before it has seen what its opener had seen; that a slot, a page or a
//! number is left: `NoSlot` and `PoolFull` say what was found. Of the calls of a `Shared` only `close_by_poll` takes
//! memory, for the task that polls; where it can't have any, it goes on without. A call that takes a runtime may wait
//! for other passes.
#![tactic(auto)]

mod arena;
mod handle;
mod laws;
mod shared;

pub use arena::Arena;
pub use handle::AutoHandle;
pub use laws::{
    a_handle_lasts, a_hold_lasts, a_worker_can_be_gathered, keeps_its_pool, what_is_held_is_open,
};
pub use shared::Shared;
