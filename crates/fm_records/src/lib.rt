//! What queries over records answer: for each item a count, a sum, a least or greatest number, or all numbers.
//!
//! **The problem.** A query reads many words, and nothing is held between two visits of an arena: others may write, or
//! close the arena, in the midst of it. So there need be no moment at which the bytes stood as the query found them.
//!
//! **The idea.** What is answered is said of what the query's own Reads found, record by record: a record's conditions
//! are tested in order up to the first that fails, and where all hold its items' values are read and added. A word of a
//! record is read once. Only where the Reads found the bytes of one list is the answer said of that list, by a
//! definition that knows of no memory.
//!
//! **Both sides.** Who writes meanwhile needs to know nothing of the query. Who asks knows the bytes where it is by
//! itself, or where nobody changes the segment's bytes.
//!
//! **Why it is safe.** Each Read is a visit of its own, so a closed arena is found closed at a word and stops the query
//! there. An answer comes from no more numbers than the segment has bytes, so no count or sum wraps, and answers over
//! two runs of records join to that over both (`answers_join`), which crews rest on.
//!
//! **What is not promised.** An answer as of one moment, where others write. That memory is there: a list takes it as
//! it grows, and a list that can't grow ends the query with `Memory`.
#![tactic(auto)]

mod adder;
mod answer;
mod column;
mod found;
mod laws;
mod numbers;
mod query;
mod querying;
mod record;
mod row;
mod stored;
mod values;
mod words;
mod writing;

pub use answer::{Answer, of_no_records};
pub use fm_records_query::{Query, check_record, parse_query};
pub use found::Found;
pub use laws::{
    answers_are_few, answers_are_of_the_query, answers_join, answers_over_bytes, few_can_join,
    greatest_is_greatest, least_is_least, lists_admitted, numbers_stand_at_places,
    places_have_the_bytes, reads_what_is_asked, reads_words_once, shares_answer, shares_join,
    shares_read, spared_are_found,
};
pub use numbers::Numbers;
pub use query::query_segment;
pub use values::number_of_value;
pub use writing::write_answer;
