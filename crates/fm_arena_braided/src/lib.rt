//! Code that uses a memory, cut off at any of its steps.
//!
//! An access of several pieces is a row of visits, and others may close the arena between any two calls of them. Threads
//! show few of these orders, and seldom the same twice. A [`Braided`] shows each one on one thread: it is a memory that
//! hands the turn to somebody else before each of its numbered calls, so a test closes the arena at call 0, 1, 2 and so
//! on, and sees what the access answers and what it leaves.
//!
//! ```
//! let (mut braided, source, target) = scene(rt, &pool, first, at);
//! let found = access.make(rt, &mut braided, &cut);
//! let mut ours = ended(rt, braided, &target, walk);
//! ```
//!
//! Here `scene` makes a `Braided` of a pass and a turn that closes the source's arena at the call `at`, `cut` has the
//! two segments, and `ended` takes the `Braided` apart by `into_parts`. Whoever has the turn holds a pass of its own,
//! and makes calls that wait for nobody.
#![tactic(auto)]

mod braided;
mod turn;

pub use braided::Braided;
pub use turn::Turn;
