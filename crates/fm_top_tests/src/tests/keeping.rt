use crate::tests::compared::same;
use crate::tests::endings::{parts_of, row_ends, run, sink};
use crate::tests::files::files;
use fm_io::{FreeGate, MemFiles};
use fm_script_report::print_report;
use fm_top::Kept;
use std::alloc::AllocGlobal;
use std::process::Abort;
use std::random::RandomSource;
use std::sync::Wait;
use std::thread::Threads;

/// Lines, their statuses, and whether a pool or a report is kept, also where the write of the number behind `at` fails.
const KEEPING: &str = "\
query;Sale;count;Sales -> 0 pool
query;Sale;count,;Sales -> 5 none
tally;Sale;.tags[];Sales -> 0 pool
group;Sale;.price;Sales -> 0 pool
group;Sale;.price;Ragged -> 6 none
stream;Sale;count;Ragged -> 6 none
stream;Sale;count;Sales -> 0 pool
stream;Sale;count;nofile -> 2 none
stream;Sale;count;Empty -> 0 pool
stream;Sale;count,;Sales -> 5 none
stream;--threads;16;Sale;count;Sales -> 0 pool
query;Sale;count;nofile -> 2 none
demo;--threads;2;3 -> 0 pool
query;Sale;count;Ragged -> 6 none
query;Sale;count;Empty -> 0 pool
layout;Sale -> 0 none
migrate;Sale -> 0 none
tally;Sale;.tags[];Empty -> 0 pool
group;Sale;.price;Empty -> 0 pool
sum;8;0;long;Sales -> 0 none
texts;Sale;.tags;Sales -> 0 none
query;--threads;16;Sale;count;Sales -> 0 pool
query -> 1 none
tally;Sale;.price;Sales -> 5 none
group;Sale;.tags;Sales -> 5 none
tally;Broken;.tags[];Sales -> 4 none
query;Sale;count;Sales -> 8 pool at 0
query;Sale;count,;Sales -> 8 none at 0
tally;Sale;.tags[];Sales -> 8 pool at 0
group;Sale;.price;Sales -> 8 pool at 0
query;Sale;count,;Sales -> 8 none at 0
stream;Sale;count;Sales -> 8 pool at 0
query -> 8 none at 0
demo;3 -> 8 pool at 0
sum;8;0;long;Sales -> 8 none at 0
texts;Sale;.tags;Sales -> 8 none at 0
query;Sale;count;Sales -> 8 pool at 3
query;Sale;count,;Sales -> 8 none at 3
tally;Sale;.tags[];Sales -> 8 pool at 3
group;Sale;.price;Sales -> 8 pool at 3
query;Sale;count,;Sales -> 8 none at 3
stream;Sale;count;Sales -> 8 pool at 3
query -> 8 none at 3
demo;3 -> 8 pool at 3
sum;8;0;long;Sales -> 8 none at 3
texts;Sale;.tags;Sales -> 8 none at 3
run;Twice -> 0 report
run -> 1 none
run;Twice -> 8 report at 3
demo;3 -> 0 pool
run;Twice -> 8 report at 0
run;nofile -> 2 none";

/// Runs the line of a row, and compares how it ends and what is kept with what the row tells.
fn keeps<R>(rt: &R, files: &mut MemFiles, row: &str, kept: &mut Kept)
where
    R: Threads + Wait + Sync + RandomSource + AllocGlobal + Abort,
{
    let (row, failing) = row.rsplit_once(" at ").unwrap_or((row, ""));
    let (line, status, keeps) = parts_of(rt, row);
    let mut out = sink(rt, failing.parse().unwrap_or(u64::MAX));
    let code = run(rt, line, files, &mut out, &FreeGate, kept);
    let found = (code, kept.finished().is_some(), kept.report().is_some());
    let wanted = (status, keeps.as_str() == "pool", keeps.as_str() == "report");
    same(rt, (found, row), (wanted, row));
}

// What is kept is that of the last run, whatever the one before kept.
#[test]
fn what_is_kept_is_that_of_an_answer_or_of_a_report(rt: HostRuntime) {
    let mut files = files(&rt, u64::MAX, usize::MAX);
    let mut kept = Kept::new();
    same(
        &rt,
        (kept.finished().is_none(), kept.report().is_none()),
        (true, true),
    );
    for row in KEEPING.lines() {
        keeps(&rt, &mut files, row, &mut kept);
    }
}

/// What is printed of a script.
const REPORT: &str =
    "first open a shared -> ok\nfirst alloc a s 8 8 -> ok 0\nfirst set s long 0 7 -> ok\nfirst close a -> ok\n\
    first open b shared -> ok\nfirst alloc b t 8 8 -> ok 0\nfirst get t long 0 -> 0\n\
    first get s long 0 -> refused 1\nbytes b 0000000000000000\n";

#[test]
fn the_report_that_is_kept_is_what_was_printed(rt: HostRuntime) {
    let mut files = files(&rt, u64::MAX, usize::MAX);
    let mut out = sink(&rt, u64::MAX);
    let mut kept = Kept::new();
    let code = run(&rt, "run;Twice", &mut files, &mut out, &FreeGate, &mut kept);
    same(&rt, (code, out.written()), (0, REPORT.as_bytes()));
    let report = kept.report().expect(&rt, "a report");
    let text = print_report(rt.alloc(), report).expect(&rt, "a text");
    same(&rt, text.as_str(), REPORT);
}

/// Runs one after another, of which the first one's first read fails.
const FOLLOWING: &str = "\
query;Sale;min(.price) where .kind=9;Sales -> 3
query;Sale;min(.price) where .kind=9;Sales -> 0 min(.price) none|
query;Sale;count;nofile -> 2 missing nofile|
query;Sale;min(.price) where .kind=9;Sales -> 0 min(.price) none|";

#[test]
fn one_run_follows_another(rt: HostRuntime) {
    let mut files = files(&rt, 0, usize::MAX);
    for row in FOLLOWING.lines() {
        row_ends(&rt, &mut files, row, &FreeGate);
    }
}
