//! Gates for tests: at a `Meeting` two workers wait for each other, a `Recording` keeps who passed it.
#![tactic(auto)]

mod meeting;
mod recording;

pub use meeting::{Meeting, Order};
pub use recording::Recording;
