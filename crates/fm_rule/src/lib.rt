//! The pool's words, shared by passes, and the steps of a pass: each is one atomic step on one word.
//!
//! **The problem.** A pass reads words of an arena while another one ends it and lends its pages on. No lock is taken,
//! so a look at "is it alive?" may be out of date before the first word is read.
//!
//! **The reader's side.** A pass publishes in its mark which arena it is about to use (`step_mark`), and only then
//! looks whether the arena lives (`step_check`). It clears the mark after its last act (`step_unmark`).
//!
//! **The closer's side.** It shuts the arena (`step_shut`), and only then looks at every mark (`step_visit`). At the
//! last one the arena ends; then its words are wiped and its pages given back, one by one.
//!
//! **Why it is safe.** All steps have one order. A mark that comes before the shut is found by the walk; one that comes
//! after it is followed by a look that finds the arena shut. All words change by the functions of this crate alone, and
//! the facts of `fm_rule_facts` hold between any two steps of any passes. So each step tells its pass what is true of
//! the whole history: what others did since its last step, and then its own entries.
//!
//! **What is not promised.** No step waits, and none tries again: an exchange that finds another word than it expects
//! says so, and changes nothing. A pass that is dropped keeps its mark, its number and what is in its hand. A slot has
//! as many arenas as the shape says, a number as many terms as fit in a word of 32 bits. All memory is taken in
//! [`Pool::make`].
#![tactic(auto)]

mod acts;
mod drawing;
mod finishing;
mod fitting;
mod gathering;
mod given_bytes;
mod holding;
mod notes;
mod numbering;
mod paging;
mod pass;
mod pool;
mod seen;
mod steps;
mod sweeping;
mod taking;
mod updates;
mod words;

pub use drawing::step_draw;
pub use finishing::Finished;
pub use fitting::room;
pub use holding::{step_back, step_hold, step_unhold};
pub use notes::Note;
pub use numbering::{step_give_number, step_learn_term, step_raise_term, step_take_number};
pub use paging::{step_find, step_give_page, step_map, step_read_map, step_take_page};
pub use pass::{Part, Pass};
pub use pool::Pool;
pub use steps::{
    step_check, step_load, step_mark, step_open, step_shut, step_store, step_unmark, step_visit,
};
pub use sweeping::{
    step_give_slot, step_reset_given, step_retire, step_return_page, step_sweep_given,
    step_sweep_map, step_unmap, step_wipe,
};
pub use taking::{step_generation, step_take_slot};
pub use updates::{guess_given, step_add, step_allocate, step_swap_if};
pub use words::{MOST_HOLDS, alive_holds, mark_of};
