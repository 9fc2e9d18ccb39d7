//! Closing an arena of a pool by polls.
//!
//! **The problem.** `close` of `fm_close` waits while a mark names the arena, and may never return. A program with a loop
//! of its own can't spin until the last reader has left: it goes on with other work, and asks again.
//!
//! **The closer's side.** A [`Closer`] owns a pass and the close that the pass has begun. A poll of its future, or
//! [`Closer::advance`], visits marks up to one that names the arena: it answers who is in the way, and that mark is the
//! next to be visited. Once the arena has ended the future is ready, and [`Closer::sweep`] gives back the pages, the slot
//! and the pass. [`close_by_poll`] does all of it over a pass that is borrowed.
//!
//! **The reader's side** is `fm_gate`, as with `close`: a reader knows of no closer, and wakes none.
//!
//! **Why it is safe.** A poll is a row of visits of `fm_close`, and a number whose mark was seen not to name the arena is
//! done with for good. So nothing has to be looked at again, however long it takes to the next poll, and whoever comes
//! meanwhile finds the arena shut. The visits of all polls together are the visits of one close.
//!
//! A future borrows its [`Closer`], so it can be dropped at any time: the close stands where the last poll left it.
//!
//! **Several arenas.** A [`SetCloser`] owns a pass and the closes of up to 64 arenas. They stand side by side: a poll of
//! one arena's marks moves no other close. Each poll goes through all that haven't ended, in the order of adding, and
//! none of them waits for another.
//!
//! **What is not promised.** That anybody wakes a pending future: it asks to be polled again at once, and who polls it
//! decides when. That it is ever ready: a pass that stays inside blocks it. That the blocker is still inside when it is
//! read: its mark was loaded in that poll. Only [`close_by_poll`] takes memory, for the task that polls, and where it
//! can't have any, it goes on without; and [`SetCloser::empty`], for all closes that the set will have.
#![tactic(auto)]

mod advancing;
mod borrowed;
mod by_poll;
mod closer;
mod future;
mod outcome;
mod set;
mod set_future;
mod waiting;

pub use advancing::advance;
pub use by_poll::close_by_poll;
pub use closer::Closer;
pub use future::CloseFuture;
pub use outcome::{NoMemory, Start};
pub use set::SetCloser;
pub use set_future::SetFuture;
