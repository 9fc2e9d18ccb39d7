//! A chunk of a file, put into an arena of a pool by its first pass while others are at work.
//!
//! The file is cut into chunks of as many bytes each, but for the last. A chunk is put portion by portion, as it is read;
//! when all of it stands, the pass makes a note, with which the chunk goes to a worker. Others may be at work in the pool,
//! so the pass can't say what stands in an arena: it says what it put there itself, and that the note had seen that.
//!
//! - **keeper**: the first pass's turns at a desk, how many chunks are out, and what came of those that came back.
#![tactic(auto)]

mod coming_back;
mod filling;
mod keeper;
mod made;
mod making;

pub use coming_back::take_back;
pub use filling::Filling;
pub use keeper::{Back, Keeper};
pub use made::Made;
pub use making::make_chunk;
