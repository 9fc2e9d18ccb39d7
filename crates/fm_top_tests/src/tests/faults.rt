use crate::tests::compared::same;
use crate::tests::endings::{parts_of, run, sink};
use crate::tests::files::files;
use fm_io::FreeGate;
use fm_top::Kept;
use std::alloc::AllocGlobal;
use std::process::Abort;
use std::random::RandomSource;
use std::sync::Wait;
use std::thread::Threads;

/// Runs of each status that has a text: how many reads they make, each of a byte, of a file's end or of no file, their
/// words, which semicolons part, and how they end. Where workers race, ` or ` parts the texts that may be printed, which
/// are equally long.
const RUNS: &str = "\
33 sum;16;8;long;Longs -> 0 sum 2|
245 layout;Sale -> 0 size 24|alignment 8|.id 0 int little|.kind 4 short little|.price 8 long little|.tags[] 16 byte little 1*4|
245 migrate;Sale -> 0 {\"layout\":{\"members\":[{\"name\":\"id\",\"type\":\"int\"},{\"name\":\"kind\",\"type\":\"short\"},{\"size\":2,\"type\":\"padding\"},{\"name\":\"price\",\"type\":\"long\"},{\"count\":4,\"element\":{\"type\":\"byte\"},\"name\":\"tags\",\"type\":\"sequence\"},{\"size\":4,\"type\":\"padding\"}],\"type\":\"struct\"},\"types\":[],\"version\":2}|
294 query;--threads;2;Sale;count,sum(.price),list(.tags[]) where .kind>=2;Sales -> 0 count 2|sum(.price) 210|list(.tags[]) 1 2 3 4 5 0 0 -1|
294 stream;--threads;2;Sale;count,sum(.price),list(.tags[]) where .kind>=2;Sales -> 0 count 2|sum(.price) 210|list(.tags[]) 1 2 3 4 5 0 0 -1|
294 tally;Sale;.tags[];Sales -> 0 -1 1|0 2|1 1|2 1|3 1|4 1|5 1|total 8|
294 group;--threads;2;Sale;.price;Sales -> 0 -40 1|250 1|total 2|
294 texts;Sale;.tags;Sales -> 0 refused 61|text 05|
111 run;Added -> 0 first open a shared -> ok|first alloc a s 8 8 -> ok 0|1 add s long 0 5 -> 0|2 add s long 0 7 -> 5|last get s long 0 -> 12|bytes a 0c00000000000000| or first open a shared -> ok|first alloc a s 8 8 -> ok 0|1 add s long 0 5 -> 7|2 add s long 0 7 -> 0|last get s long 0 -> 12|bytes a 0c00000000000000|
0 demo;3 -> 0 count 3|sum(.amount) -126243|min(.amount) -50000|max(.amount) -34162|count 0|sum(.id) 0|
0 sum -> 1 usage|
1 sum;16;8;long;nofile -> 2 missing nofile|
49 layout;Sales -> 4 layout refused 40|
245 query;Sale;count,;Sales -> 5 query refused 50 6|
33 sum;24;8;long;Longs -> 6 ragged 8|
278 stream;Sale;count;Longs -> 6 ragged 8|
33 run;Longs -> 10 script refused 1|";

/// Runs whose reads bring whole files: each file that is there takes one for its bytes and one for its end.
const WHOLE: &str = "\
1 query;nolayout;count;Sales -> 2 missing nolayout|
2 query;Broken;count;Sales -> 4 layout refused 40|
2 query;Void;count;Sales -> 4 layout refused 25|
2 query;Sale;count,;Sales -> 5 query refused 50 6|
3 query;Sale;count;nofile -> 2 missing nofile|
4 query;Sale;count;Ragged -> 6 ragged 1|
4 query;Sale;count;Sales -> 0 count 2|
1 stream;nolayout;count;Sales -> 2 missing nolayout|
2 stream;Broken;count;Sales -> 4 layout refused 40|
2 stream;Sale;count,;Sales -> 5 query refused 50 6|
3 stream;Sale;count;nofile -> 2 missing nofile|
3 stream;Sale;count;Empty -> 0 count 0|
4 stream;Sale;count;Ragged -> 6 ragged 1|
4 stream;Sale;count;Sales -> 0 count 2|";

/// How many reads a run makes, its words, how it ends where none of its calls fails, and how many bytes it writes then.
#[derive(Drop)]
struct Run<'a> {
    reads: u64,
    words: &'a str,
    status: u8,
    texts: String,
    size: u64,
}

fn run_of<'a, R: AllocGlobal + Abort>(rt: &R, row: &'a str) -> Run<'a> {
    let (line, status, texts) = parts_of(rt, row);
    let (reads, words) = line.split_once(' ').unwrap_or((line, line));
    let all = texts.as_str();
    let (first, _) = all.split_once(" or ").unwrap_or((all, all));
    let size = first.len() as u64;
    Run {
        reads: reads.parse().unwrap_or(u64::MAX),
        words,
        status,
        texts,
        size,
    }
}

/// Compares the status of a run and how many bytes of its texts it writes with what is wanted, where each read gives at
/// most so many bytes, and the read and the write of these numbers fail.
fn ends_at<R>(rt: &R, row: &Run, most: usize, failing: (u64, u64), wanted: (u8, u64))
where
    R: Threads + Wait + Sync + RandomSource + AllocGlobal + Abort,
{
    let (read, write) = failing;
    let (mut files, mut out) = (files(rt, read, most), sink(rt, write));
    let code = run(
        rt,
        row.words,
        &mut files,
        &mut out,
        &FreeGate,
        &mut Kept::new(),
    );
    let (found, texts) = (out.written(), row.texts.as_str());
    let (first, other) = texts.split_once(" or ").unwrap_or((texts, texts));
    let is_told = first.as_bytes().starts_with(found) || other.as_bytes().starts_with(found);
    let at = (row.words, most, failing);
    same(
        rt,
        (((code, found.len() as u64), is_told), at),
        ((wanted, true), at),
    );
}

/// Compares how a run ends where each of its reads fails in turn: nothing is written then. Where none fails all is
/// written, and nothing is read past what is needed; so it is in pieces of every size.
fn ends_at_each_read<R>(rt: &R, row: &Run, most: usize)
where
    R: Threads + Wait + Sync + RandomSource + AllocGlobal + Abort,
{
    for read in 0..row.reads {
        ends_at(rt, row, most, (read, u64::MAX), (3, 0));
    }
    let whole = (row.status, row.size);
    ends_at(rt, row, most, (row.reads, u64::MAX), whole);
    ends_at(rt, row, 7, (u64::MAX, u64::MAX), whole);
    ends_at(rt, row, usize::MAX, (u64::MAX, u64::MAX), whole);
}

#[test]
fn each_read_that_fails_ends_its_run(rt: HostRuntime) {
    for row in RUNS.lines() {
        ends_at_each_read(&rt, &run_of(&rt, row), 1);
    }
}

#[test]
fn nothing_is_read_past_what_is_needed(rt: HostRuntime) {
    for row in WHOLE.lines() {
        ends_at_each_read(&rt, &run_of(&rt, row), usize::MAX);
    }
}

/// Compares how a run ends where each of its writes fails in turn: the bytes before it are written.
fn ends_at_each_write<R>(rt: &R, row: &Run)
where
    R: Threads + Wait + Sync + RandomSource + AllocGlobal + Abort,
{
    for write in 0..row.size {
        ends_at(rt, row, 1, (u64::MAX, write), (8, write));
    }
    ends_at(rt, row, 1, (u64::MAX, row.size), (row.status, row.size));
}

#[test]
fn each_write_that_fails_leaves_the_bytes_before_it(rt: HostRuntime) {
    for row in RUNS.lines() {
        ends_at_each_write(&rt, &run_of(&rt, row));
    }
}
