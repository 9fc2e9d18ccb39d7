//! The tool: what its words ask for, how a run ends, and what it prints.
//!
//! `command` reads the words, a file for each form of them. `outcome` does what they ask for, a file for each command's
//! end, up to the writing. `run` is the top call.
//!
//! **The problem.** A run can go wrong at its words, at a file, at a limit, in a query or in the writing, and more than
//! one of these may apply. What is printed must not be half of an answer over data that was read in part, and the
//! status has to say what was wrong.
//!
//! **The idea.** Words ask for one request or for none (`Asks`). A request and what the files hold have an outcome: a
//! status, a text, and what is kept. [`run_tool`] comes to the outcome first, and only then writes its text.
//!
//! **Both sides.** Files and the sink are the caller's, and may tell what they hold and count their faults (`fm_io`).
//! The outcome is said over what they tell, and a fault is answered only where one of them shows it.
//!
//! **Why it is safe.** The status, what was written and what is kept are those of one outcome (`runs`), each status has
//! its cause by one table (`causes`), and input to which no other cause applies is answered whole, but for want of
//! memory (`complete`). What an earlier run kept is gone first.
//!
//! **What is not promised.** Which of its possible reports a script's run gives. That memory is there: want of it may
//! end any run. That a text which was written in part is taken back: after a failed write a prefix of it stands in the
//! sink.
#![tactic(auto)]

mod command;
mod laws;
mod outcome;
mod run;

pub use fm_top_load::{LAYOUT_FILE_LIMIT, RECORD_FILE_LIMIT};
pub use laws::words_have_one_outcome;
pub use outcome::{Kept, SCRIPT_FILE_LIMIT, Status};
pub use run::run_tool;
