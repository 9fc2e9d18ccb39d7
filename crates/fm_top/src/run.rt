ghost use Rattle.std.specs.Prelude.{◌≡◌};
ghost use Rattle.fm_top_options.specs.Options.{texts};
ghost use Rattle.fm_top.specs.Ran.{Ran};
ghost use Rattle.fm_top.specs.Run.{traces_of};
ghost use Rattle.fm_top.specs.Words.{AreFaulty};

use crate::outcome::{Host, Kept, print_end, reply_of};
use fm_io::{Files, Gate, Sink};
use std::alloc::{AllocGlobal, Global};
use std::random::RandomSource;
use std::sync::Wait;
use std::thread::Threads;

/// Runs the tool on its words, which exclude the program's own name, and answers the code of its status (`Status`).
///
/// Everything is written after the answer is complete, in pieces where its text is long or names a missing file. What an
/// earlier run kept is gone first.
///
/// The statuses are tested in this order: `Usage`; of the layout's file `Missing`, `Unread` and `TooLong`;
/// `LayoutRefused`; `QueryRefused`; of the record file `Missing`, `Unread`, `TooLong` and `Ragged`; of `group` `TooLong`
/// for more values than it takes; `Unwritten`. Of `run`, whose one file is the script: `Usage`; `Missing`, `Unread` and
/// `TooLong`; `ScriptRefused`; `Unwritten`. `NoMemory` may come at any time.
///
/// A script whose lines the runtime refuses while it runs is answered: its report has the status `Answered`.
pub fn run_tool<R, F, O, G>(
    rt: &R,
    alloc: Global,
    words: &[String],
    files: &mut F,
    out: &mut O,
    gate: &G,
    kept: &mut Kept,
) -> u8
where
    R: Threads + Wait + Sync + RandomSource + AllocGlobal,
    F: Files,
    O: Sink,
    G: Gate,
    ensures ran { Ran (texts words.now)
        (traces_of (F.view files.old)
        (F.view files.new)
        (O.view out.old) (O.view out.new))
        kept.new result }
    ensures reads_nothing { AreFaulty (texts words.now) → files.new ≡ files.old }
{
    *kept = Kept::new();
    let host = Host { rt, alloc, gate };
    let end = reply_of(&host, files, words);
    let (status, left) = print_end(alloc, out, end);
    *kept = Kept::of(left);
    status.code()
}
