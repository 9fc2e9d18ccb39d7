//! Jobs that threads take from one queue, each job once.
//!
//! A thread that finds the queue empty learns nothing that lasts: more may be pushed, and no contract says later that
//! nothing was left. So a taker ends at a *stop*: whoever gives the jobs pushes them all, and behind them one stop for
//! each taker. Who has taken a stop knows that no job is left, by the order of the queue; and once the giver's turn has
//! absorbed all others, it is settled that each job was taken exactly once.
//!
//! - **job**: a number; what it stands for is beside the queue, in a list that all takers borrow.
//! - **stop**: the item at which a taker ends.
//! - **turn**: what one thread pushed and took. It has no bytes; the first one, the giver's, comes with the queue, and the
//!   takers' are made of it, and absorbed by it again.
//!
//! Not promised: which taker gets which job, or how many.
#![tactic(auto)]

mod account;
mod batch;
mod fair;
mod item;
mod jobs;
mod pushing;
mod settling;
mod taking;
mod turning;

pub use account::{Account, Role};
pub use item::Item;
pub use jobs::{Jobs, Turn};
