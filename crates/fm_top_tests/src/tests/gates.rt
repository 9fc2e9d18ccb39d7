use crate::tests::compared::same;
use crate::tests::endings::row_ends;
use crate::tests::files::{files, repeating, with_records};
use fm_io::Files;
use fm_io_gates::Recording;
use std::alloc::AllocGlobal;
use std::process::Abort;
use std::random::RandomSource;
use std::sync::Wait;
use std::thread::Threads;

/// Rows, and behind `by` a line for each worker that passed the gate: `+` before and `-` after the call of this number.
/// Which of several workers takes which share isn't fixed, so there is one here, and a call for each share, at most four.
/// The two queries of `demo` are calls of two crews, and where nothing is asked of records nobody passes.
const PASSED: &str = "\
query;--threads;1;Sale;count;Sales -> 0 count 2| by 1: +0 -0 +1 -1|
stream;--threads;1;Sale;count;Sales -> 0 count 2| by 1: +0 -0 +1 -1|
tally;--threads;1;Sale;.tags[0];Sales -> 0 1 1|5 1|total 2| by 1: +0 -0 +1 -1|
group;--threads;1;Sale;.price;Sales -> 0 -40 1|250 1|total 2| by 1: +0 -0|
demo;--threads;1;3 -> 0 count 3|sum(.amount) -126243|min(.amount) -50000|max(.amount) -34162|count 0|sum(.id) 0| by 1: +0 -0 +1 -1 +2 -2 +0 -0 +1 -1 +2 -2|
query;Sale;count;Ragged -> 6 ragged 1|
stream;Sale;count;Ragged -> 6 ragged 1|
stream;Sale;count;Empty -> 0 count 0|
texts;Sale;.tags;Sales -> 0 refused 61|text 05|
layout;nofile -> 2 missing nofile|
run;Shared -> 0 first open a shared -> ok|first alloc a s 16 8 -> ok 0|1 set s long 0 5 -> ok|1 get s long 0 -> 5|2 set s long 8 7 -> ok|last get s long 8 -> 7|bytes a 05000000000000000700000000000000| by 1: +0 -0 +1 -1|2: +0 -0|";

/// Compares how a run on the row's line ends with what the row tells, and all who passed the gate.
fn row_passes<R, F>(rt: &R, files: &mut F, row: &str)
where
    R: Threads + Wait + Sync + RandomSource + AllocGlobal + Abort,
    F: Files,
{
    let (row, passed) = row.rsplit_once(" by ").unwrap_or((row, ""));
    let gate = Recording::new(rt.alloc()).expect(rt, "memory");
    row_ends(rt, files, row, &gate);
    let wanted = passed.replace(rt.alloc(), "|", "\n").expect(rt, "memory");
    let found = gate.text(rt.alloc()).expect(rt, "memory");
    same(rt, (found.as_str(), row), (wanted.as_str(), row));
}

#[test]
fn each_worker_passes_the_gate_around_its_calls(rt: HostRuntime) {
    let mut files = files(&rt, u64::MAX, usize::MAX);
    for row in PASSED.lines() {
        row_passes(&rt, &mut files, row);
    }
}

/// Records of 700,000 bytes, the first of which is `a`, so that each lies in a chunk of its own.
const LONG: &str =
    "{\"type\":\"struct\",\"members\":[{\"type\":\"byte\",\"name\":\"a\"},{\"type\":\"padding\",\"size\":699999}]}";

// Each chunk has a crew of its own, whose calls are counted from 0.
#[test]
fn each_chunk_has_a_crew(rt: HostRuntime) {
    let mut files = with_records(&rt, LONG, &repeating(&rt, 3_500_000));
    let row =
        "stream;L;list(.a);R -> 0 list(.a) 0 -44 -83 -122 95| by 1: +0 -0 +0 -0 +0 -0 +0 -0 +0 -0|";
    row_passes(&rt, &mut files, row);
}
