//! Two ranges of bytes, gone through side by side: a copy of one to the other, and the first byte in which they differ.
//! A piece is a longest run of bytes in one word of each side.
#![tactic(auto)]

mod copy;
mod mismatch;
mod side;

pub use copy::copy_range;
pub use mismatch::{first_difference, mismatch_range};
pub use side::{Piece, Side, Way, next_piece, way_of};
