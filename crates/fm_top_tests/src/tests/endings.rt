use crate::tests::compared::same;
use fm_io::{Files, Gate, MemSink};
use fm_top::{Kept, run_tool};
use std::alloc::AllocGlobal;
use std::process::Abort;
use std::random::RandomSource;
use std::sync::Wait;
use std::thread::Threads;

/// The words of a line, which this mark parts.
pub fn words_of<R: AllocGlobal + Abort>(rt: &R, line: &str, mark: char) -> Vec<String> {
    let mut words = Vec::new(rt.alloc());
    for word in line.split(mark) {
        let word = String::from_str(rt.alloc(), word).expect(rt, "memory");
        words.push(word).expect(rt, "memory");
    }
    words
}

/// A sink that takes a byte in each write, and where the write of this number fails.
pub fn sink<R: AllocGlobal + Abort>(rt: &R, failing: u64) -> MemSink {
    let failing = vec![in rt.alloc(); failing].expect(rt, "memory");
    MemSink::new(rt.alloc(), failing).with_piece(1)
}

/// Runs the tool on the words of a line, which semicolons part, and answers its status.
pub fn run<R, F, G>(
    rt: &R,
    line: &str,
    files: &mut F,
    out: &mut MemSink,
    gate: &G,
    kept: &mut Kept,
) -> u8
where
    R: Threads + Wait + Sync + RandomSource + AllocGlobal + Abort,
    F: Files,
    G: Gate,
{
    run_tool(
        rt,
        rt.alloc(),
        &words_of(rt, line, ';'),
        files,
        out,
        gate,
        kept,
    )
}

/// A row of a table: a line, and behind an arrow the status and what is printed, where a bar stands for each line's end.
///
/// A table is one text, since a prover goes through an array row by row.
pub fn parts_of<'a, R: AllocGlobal + Abort>(rt: &R, row: &'a str) -> (&'a str, u8, String) {
    let (line, end) = row.split_once(" -> ").unwrap_or((row, ""));
    let (status, printed) = end.split_once(' ').unwrap_or((end, ""));
    let text = printed.replace(rt.alloc(), "|", "\n").expect(rt, "memory");
    (line, status.parse().unwrap_or(u8::MAX), text)
}

/// Compares how a run on the line of a row ends, past a gate, and all that it writes with what the row tells.
pub fn row_ends<R, F, G>(rt: &R, files: &mut F, row: &str, gate: &G)
where
    R: Threads + Wait + Sync + RandomSource + AllocGlobal + Abort,
    F: Files,
    G: Gate,
{
    let (line, status, text) = parts_of(rt, row);
    let mut out = sink(rt, u64::MAX);
    let code = run(rt, line, files, &mut out, gate, &mut Kept::new());
    same(
        rt,
        (code, out.written(), line),
        (status, text.as_bytes(), line),
    );
}
