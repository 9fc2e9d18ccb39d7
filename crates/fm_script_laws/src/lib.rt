//! Laws of lines of scripts: they change only bytes that their arenas have given, a worker's line finds no slot only
//! where others had each, and none is refused for want of memory, nor of a page unless it allocates.
#![tactic(auto)]

mod laws;

pub use laws::{
    finds_are_right, lines_are_tidy, lines_want_nothing, parts_are_tidy, reports_are_tidy,
    reports_find_many, rows_are_tidy,
};
