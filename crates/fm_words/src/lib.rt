//! The shape of a pool, the places of its words in their one table, and the codings of these words.
//!
//! **The problem.** A pool is one table of words of 64 bits, and all that passes share is a word in it: a mark, a
//! session, a count of given bytes, eight bytes of a page. Were two of them one word, or were a word read as something
//! else than was written, an arena could end while a pass is inside, or show another arena's bytes.
//!
//! **The idea.** What a word is for is a `Place`, and the table's layout gives each place an index. A session, a mark
//! and a page's number are each packed into a word by one function, and read back by another. Both are said by products
//! and remainders; shifts and masks stand in this crate alone.
//!
//! **Both sides.** Who stores a word makes it by `session_word`, `mark_word` or `map_word`. Who loads one asks
//! `session_of`, `mark_of` or `map_of`, of any word that may stand there.
//!
//! **Why it is safe.** Every word of the table is that of exactly one place (`every_word_has_one_place`), and each
//! coding is read back as what was packed.
//!
//! **What is not promised.** Who may store which word, and when: that is the rule of `fm_rule`. A mark names a slot and
//! a generation, not who opened the arena. Nothing here takes memory or loops.
#![tactic(auto)]

mod bits;
mod halves;
mod laws;
mod life;
mod map;
mod mark;
mod places;
mod session;
mod shape;

pub use bits::{lowest_bit, ones, without_bit};
pub use laws::every_word_has_one_place;
pub use life::Life;
pub use map::{map_of, map_word};
pub use mark::{mark_of, mark_word};
pub use session::{Session, session_of, session_word};
pub use shape::Shape;
