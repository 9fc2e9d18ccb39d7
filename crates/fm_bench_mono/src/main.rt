//! Record files over a `Mono`, the arenas of one thread, for the benchmarks: `load FILE` loads the file and prints its
//! size, `query LAYOUT QUERY FILE` prints what the query answers over its records, as `fmem query` does over a pool.
//! `texts TURNS FILE` gets the text of each of its records of 32 bytes so often, and prints how many bytes they have in all.
//!
//! `slices COUNT` needs no file: it cuts so many slices off a segment, and prints the sum of the places where they begin.
//!
//! The script that calls it takes the time.
#![tactic(auto)]

mod answering;
mod fields;

use crate::answering::{print_answered, query_of};
use crate::fields::{slices, texts};
use fm_io::{Files, HostFiles, HostSink, HostSystem, Sink, write_text};
use fm_top_load::load;
use std::alloc::Global;
use std::env;
use std::process::ExitCode;
use std::sync::Wait;

fn main(rt: HostRuntime) -> ExitCode {
    let mut files = HostFiles::new(rt.alloc(), HostSystem::new(&rt));
    let mut out = HostSink::new(rt.stdout());
    let Some(words) = words(&rt) else {
        return ExitCode::FAILURE;
    };
    match print(&rt, rt.alloc(), &mut files, &mut out, &words) {
        Some(()) => ExitCode::SUCCESS,
        None => ExitCode::FAILURE,
    }
}

/// The words behind the program's name.
fn words(rt: &HostRuntime) -> Option<Vec<String>> {
    env::args(rt).ok()?.skip(1).collect(rt.alloc()).ok()
}

/// Does what the words ask for; none where they aren't of the form, or the call was refused.
fn print<R: Wait, F: Files, O: Sink>(
    rt: &R,
    alloc: Global,
    files: &mut F,
    out: &mut O,
    words: &[String],
) -> Option<()> {
    match words {
        [what, file] if what.as_str() == "load" => {
            let loaded = load(rt, alloc, files, file, 1).ok()?;
            print_number(alloc, out, loaded.len())
        }
        [what, layout, text, file] if what.as_str() == "query" => {
            let query = query_of(alloc, files, layout, text)?;
            print_answered(rt, alloc, files, out, &query, file)
        }
        [what, turns, file] if what.as_str() == "texts" => {
            let turns = turns.as_str().parse::<u64>().ok()?;
            print_number(alloc, out, texts(rt, alloc, files, turns, file)?)
        }
        [what, count] if what.as_str() == "slices" => {
            print_number(alloc, out, slices(count.as_str().parse::<u64>().ok()?)?)
        }
        _ => None,
    }
}

/// Prints a number as a line.
fn print_number<O: Sink>(alloc: Global, out: &mut O, n: u64) -> Option<()> {
    let text = format!(in alloc; "{n}\n").ok()?;
    write_text(out, text.as_str().as_bytes()).ok()
}
