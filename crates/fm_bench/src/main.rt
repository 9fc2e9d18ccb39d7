//! Loops for the benchmarks: `visits COUNT` of the words of a `Mono`'s arena, `gates COUNT` of a pool's arena, `spreads
//! COUNT` of one whose words lie in 64 pages, `nexts COUNT` of that one's words in turn, and `hops COUNT` of 64 of its
//! arenas, `closes POOLS` of the arenas of so many pools, `opens COUNT` of 64 bytes in one slot again and again, `wipes
//! COUNT` of 8 MiB there, `grows COUNT` of 1 MiB in 64 pages, `empties COUNT` of up to 32 MiB of which nothing is given,
//! `firsts COUNT` and `lasts COUNT` of 64 bytes in the first and in the last page of 4,096,
//! `gives COUNT` of 8 bytes at a time, `loads COUNT` from a plain vector,
//! `adds COUNT`, `swaps COUNT` and `patches COUNT` of a word in one visit, `draws COUNT` of a pass that is gathered each time,
//! `polls COUNT` of an arena that a reader stays in and `looks COUNT` of its mark, `sets ROUNDS` of 64 arenas closed at once
//! and `rows ROUNDS` of 64 closed one after another,
//! and `beside COUNT THREADS` and `apart COUNT THREADS` of visits by threads whose marks lie 64 words and 8 words apart.
//! `fm_bench_shared` has those that go through segments and handles.
//!
//! `stress ROUNDS` is no benchmark: threads add to a word, and close the arena while others add, and it prints how many
//! of the rounds came out as they should. So does `recruits ROUNDS`, whose threads draw a pass for each addition and gather
//! it again, while one of them closes the arena. `reuse ROUNDS THREADS` is none either: every other thread opens arenas, fills,
//! reads and closes them, while the others read in one that is closed in the midst. It prints how often a slot was used,
//! what was read, what was refused, how many words were wrong, and the seconds that it took.
//!
//! It prints what it found, so that the loops are run; the script that calls it takes the time.
#![tactic(auto)]

mod count;
mod crews;
mod gates;
mod loads;
mod opens;
mod polls;
mod pools;
mod reuse;
mod stress;
mod updates;
mod visits;

use crate::count::Count;
use crate::crews::{crowd, draws};
use crate::gates::{Next, PAGE, PAGES, closes, gates, hops};
use crate::loads::loads;
use crate::opens::{EMPTY, FIRST_PAGE, LARGE, LAST_PAGE, PAGED, SMALL, gives, opens};
use crate::polls::{By, polls, rows, sets};
use crate::reuse::reuse;
use crate::stress::{Trial, stress};
use crate::updates::{Update, updates};
use crate::visits::visits;
use std::alloc::Global;
use std::env;
use std::process::ExitCode;
use std::sync::Wait;
use std::thread::Threads;
use std::time::Instant;

/// What the words ask for: a loop, how often it goes round, and a word behind that, which most loops don't look at.
#[derive(Drop)]
struct Asked {
    what: String,
    count: u64,
    text: String,
}

fn main(rt: HostRuntime) -> ExitCode {
    let printed = match words(&rt) {
        Some(asked) => match asked.what.as_str() {
            "reuse" => {
                let start = Instant::now(&rt).ok();
                let threads = asked.text.parse::<u32>().unwrap_or(0);
                let came = reuse(&rt, rt.alloc(), asked.count, threads);
                print_reuse(&rt, start, came.ok()).is_some()
            }
            _ => match run(&rt, rt.alloc(), &asked) {
                Some(joined) => println!(rt; "{joined}").is_ok(),
                None => false,
            },
        },
        None => false,
    };
    if printed {
        ExitCode::SUCCESS
    } else {
        ExitCode::FAILURE
    }
}

/// Prints what came of all reads and of all uses since the start.
fn print_reuse(
    rt: &HostRuntime,
    start: Option<Instant>,
    came: Option<(Count, Count)>,
) -> Option<()> {
    let (reads, uses) = came?;
    let seconds = start?.elapsed(rt).ok()?.as_secs();
    let all = reads.and(uses);
    println!(rt;
        "{} reuses, {} reads, {} refusals, {} wrong, {seconds} s",
        uses.fine, reads.fine, all.refusals, all.wrong
    )
    .ok()
}

/// The words behind the program's name, where they are of the form; a third one may be left out.
fn words(rt: &HostRuntime) -> Option<Asked> {
    let mut words = env::args(rt).ok()?.skip(1);
    let what = words.next()?;
    let count = words.next()?.as_str().parse::<u64>().ok()?;
    let text = words.next().unwrap_or(String::new(rt.alloc()));
    Some(Asked { what, count, text })
}

/// Runs the loop of this name; none where there is no such loop, or memory ran out.
fn run<R: Threads + Wait + Sync>(rt: &R, alloc: Global, asked: &Asked) -> Option<u64> {
    let count = asked.count;
    let joined = match asked.what.as_str() {
        "loads" => return loads(alloc, count).ok(),
        "visits" => visits(rt, alloc, count),
        "gates" => gates(rt, alloc, count, PAGE, Next::Found),
        "spreads" => gates(rt, alloc, count, PAGES, Next::Found),
        "nexts" => gates(rt, alloc, count, PAGES, Next::InTurn),
        "hops" => hops(rt, alloc, count),
        "closes" => closes(rt, alloc, count),
        "opens" => opens(rt, alloc, count, SMALL),
        "wipes" => opens(rt, alloc, count, LARGE),
        "grows" => opens(rt, alloc, count, PAGED),
        "empties" => opens(rt, alloc, count, EMPTY),
        "firsts" => opens(rt, alloc, count, FIRST_PAGE),
        "lasts" => opens(rt, alloc, count, LAST_PAGE),
        "gives" => gives(rt, alloc, count),
        "polls" => polls(rt, alloc, count, By::Poll),
        "looks" => polls(rt, alloc, count, By::Visit),
        "sets" => sets(rt, alloc, count),
        "rows" => rows(rt, alloc, count),
        "adds" => updates(rt, alloc, count, Update::Add),
        "swaps" => updates(rt, alloc, count, Update::Swap),
        "patches" => updates(rt, alloc, count, Update::Patch),
        "draws" => draws(rt, alloc, count),
        "beside" => crowd(rt, alloc, count, asked.text.parse::<u64>().ok()?, 7),
        "apart" => crowd(rt, alloc, count, asked.text.parse::<u64>().ok()?, 0),
        "stress" => stress(rt, alloc, count, Trial::Adds),
        "recruits" => stress(rt, alloc, count, Trial::Recruits),
        _ => return None,
    };
    joined.ok()
}
