//! Closing an arena of a pool while others may use it.
//!
//! **The problem.** Who closes an arena must know that nobody is inside, though no pass asks it before it comes in, and
//! passes come and go while it looks.
//!
//! **The closer's side.** [`shut`] lets nobody in from now on. [`visit`] looks at one mark after another, from number
//! 0, and the arena ends at the last one. [`sweep`] spends the close: the words that were given become 0, the pages and
//! the slot free. [`close`] does all of it, and waits while a mark names the arena.
//!
//! **The reader's side** is `fm_gate`: a pass that is inside has its mark set, and it set it before it looked.
//!
//! **Why it is safe.** A pass comes in only where it finds the arena alive, and that is over once it was shut. So a
//! number whose mark doesn't name the arena at its visit is done with for good, though its mark may name the arena
//! again on the way to a refusal. The marks need not be 0 at one moment. After the end nobody reads the pages, so they
//! can be wiped.
//!
//! An automatic arena isn't shut by hand: [`give_back`] spends a handle of it, and the last one ends it in the same
//! way.
//!
//! **What is not promised.** That [`close`] and [`give_back`] return: a pass that stays inside keeps them waiting, and
//! so may passes that come to be refused. Who has the number that `Inside` names. Anything between [`shut`] and the end
//! but that nobody comes in: who is inside still reads and writes. No call takes memory; only `close` and `give_back`
//! wait.
#![tactic(auto)]

mod closing;
mod gave_back;
mod giving;
mod laws;
mod outcome;
mod shutting;
mod sweeping;
mod visiting;

pub use closing::close;
pub use gave_back::GaveBack;
pub use giving::{give_back, other_handles_last};
pub use laws::{a_close_lasts, closes_last_together};
pub use outcome::Visit;
pub use shutting::{Shutting, shut};
pub use sweeping::sweep;
pub use visiting::visit;
