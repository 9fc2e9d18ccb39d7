//! Accesses to a range of bytes of an arena, piece by piece: a piece is a longest run of bytes in one word, and each is
//! read or put in a visit of its own, the lowest place first. Many bytes are put with all their whole words in one visit.
#![tactic(auto)]

mod bytes;
mod caller;
mod laws;
mod number;
mod piece;
mod range;
mod value;
mod words;

pub use bytes::put_bytes;
pub use caller::may_use;
pub use laws::{gets_what_was_put, keeps_bytes_elsewhere, keeps_length};
pub use number::{get_number, put_number};
pub use piece::{get_piece, piece_width, put_inside, put_piece};
pub use range::{fill, word_of};
pub use value::{get_value, put_value};
pub use words::store_words;
