//! Loops for the benchmarks that go through segments and handles, over the memory that is named first: `mono`, the
//! arenas of one thread, or `shared`, those of a pool as its only pass uses them.
//!
//! `known COUNT` of a segment by a layout that the compiler knows, `gets COUNT LAYOUT` and `handles COUNT LAYOUT` by a
//! layout that is read as JSON, at offsets and by a path, `queries COUNT QUERY` of records, and `fills COUNT`, `copies
//! COUNT` and `mismatches COUNT` of segments of 64 MiB are the loops. With `visit-` in front `known`, `handles`, `fills`,
//! `copies` and `mismatches` are made in one visit, and `visit-words COUNT` and `visit-bytes COUNT` read 64 KiB into a
//! slice so often; of these `list`, a third memory, is what `known` and the two are measured against. `counts STEPS
//! NUMBERS` counts longs in a table. It prints what it found, so that they are run; the script that calls it takes the
//! time.
#![tactic(auto)]

mod cells;
mod counts;
mod inside;
mod lists;
mod memories;
mod queries;
mod ranges;
mod table;

use crate::lists::over_list;
use crate::memories::{Asked, over_mono, over_shared};
use std::alloc::Global;
use std::env;
use std::process::ExitCode;
use std::sync::Wait;

fn main(rt: HostRuntime) -> ExitCode {
    let joined = match words(&rt) {
        Some((memory, asked)) => run(&rt, rt.alloc(), &memory, &asked),
        None => None,
    };
    match joined {
        Some(joined) if println!(rt; "{joined}").is_ok() => ExitCode::SUCCESS,
        _ => ExitCode::FAILURE,
    }
}

/// The memory and the loop that the program's words name, where they are of the form; the fourth may be left out.
fn words(rt: &HostRuntime) -> Option<(String, Asked)> {
    let mut words = env::args(rt).ok()?.skip(1);
    let memory = words.next()?;
    let asked = Asked {
        what: words.next()?,
        count: words.next()?.as_str().parse::<u64>().ok()?,
        text: words.next().unwrap_or(String::new(rt.alloc())),
    };
    Some((memory, asked))
}

/// Runs the loop over the memory of this name; none where there is none, or memory ran out.
fn run<R: Wait>(rt: &R, alloc: Global, memory: &str, asked: &Asked) -> Option<u64> {
    match memory {
        "mono" => over_mono(rt, alloc, asked),
        "shared" => over_shared(rt, alloc, asked),
        "list" => over_list(alloc, asked),
        _ => None,
    }
}
