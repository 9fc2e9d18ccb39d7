//! A file of any length, through a pool of fixed size.
//!
//! The file is cut into chunks of whole records. The pool's first pass puts each chunk into an arena of its own, has a crew
//! answer the query over it, closes the arena, and joins the answer to that over the chunks before. While the crew is at
//! work, the first pass reads and puts the next chunk. So memory doesn't grow with the file: the words that a chunk had are
//! lent again to the next but one.
//!
//! - **chunk**: as many records as fit in 1,048,576 bytes; the last one may be shorter.
//! - **crew**: passes that are drawn for the chunk, take shares of its records from one queue, and are gathered again.
//!
//! A crew only looks: it enters an arena, reads words and leaves. So what the first pass does meanwhile is as if it were by
//! itself, and what it puts stands. Between two chunks it is known to be whole: nobody else is at work in the pool, and no
//! arena is closed but by it. There it waits, where a slot, a page or a number is wanting, though none can be for long: two
//! arenas are open at most. No clause says that a wait ends.
#![tactic(auto)]

mod ahead;
mod answering;
mod asking;
mod closing;
mod crew;
mod giving;
mod opening;
mod placed;
mod putting;
mod round;
mod shape;
mod stream;
mod streaming;
mod under_way;

pub use shape::MOST_CHUNK;
pub use stream::{STREAM_FILE_LIMIT, stream_with};
