//! Whole scripts: a pass for the first lines and the last ones, and one for each worker between them.
//!
//! **The problem.** Lines of several workers use names that other lines made. A report has to say what each line did,
//! and be true of a run in which the workers' entries stand in any order.
//!
//! **What comes to mind first** is one table of names that all workers share, and one list to which each adds its
//! replies. It fails: with a table that others change, what a line's name stands for depends on who came first, though
//! the script says it; and a list in the order of replies doesn't tell whose pass made which entry, so no line's
//! entries could be found in the history.
//!
//! **The idea.** Names are numbers, known before the run from the lines in their order of printing, in which each
//! pass's lines are one run. A worker looks up what the first lines made, which changes no more, and writes down what
//! its own lines made and were answered in lists of its own. The workers are the tasks of a crew (`fm_workers_crew`), so the
//! history that is left has three parts: the first lines' entries, the workers', the last lines'. The lists are put
//! together when all are gathered.
//!
//! **Why it is safe.** The rules of `fm_script_text` let a line use only names of the first lines and of its own
//! worker, and of all where it is a last line. So what a worker's names stand for needs no other worker; each caller's
//! entries in the history are the runs of its lines, one after another, and nothing else.
//!
//! This crate is the door of scripts: [`parse_script`] reads one, [`run_script`] runs it, [`print_report`] prints what it
//! did.
//!
//! **What is not promised.** Which report comes: where two workers meet at one arena, any that tells a run of the
//! script may. A worker's refusals for want of a slot or a page say what its own pass had found. Want of memory ends
//! the run.
#![tactic(auto)]

mod joining;
mod laws;
mod lines;
mod main_lines;
mod over;
mod player;
mod players;
mod run;

pub use fm_script_lines::Reply;
pub use fm_script_report::{AliveArena, Report, ReportLine, print_report};
pub use fm_script_text::{Command, Line, Script, Who, parse_script};
pub use laws::alive_arenas_fit;
pub use run::run_script;
