use crate::tests::endings::row_ends;
use crate::tests::files::{repeating, with_records};
use fm_io::{Fault, Files, FreeGate, MemFiles, Piece};
use fm_top::RECORD_FILE_LIMIT;
use std::alloc::AllocGlobal;
use std::process::Abort;
use std::random::RandomSource;
use std::sync::Wait;
use std::thread::Threads;

/// Files whose sizes are guessed so, rightly or not.
#[derive(Drop)]
struct Guessed {
    files: MemFiles,
    guess: Option<u64>,
}

impl Files for Guessed {
    ghost use Rattle.fm_io.specs.InMemory.{mem_view};

    ghost view = { λ f. mem_view f.files };

    fn read_at(&mut self, name: &str, at: u64, buf: &mut [u8]) -> Result<Piece, Fault> {
        self.files.read_at(name, at, buf)
    }

    fn guess(&self, _name: &str) -> Option<u64> {
        self.guess
    }
}

/// A layout of records of 8 bytes.
const EIGHT: &str =
    "{\"type\":\"struct\",\"members\":[{\"type\":\"byte\",\"name\":\"a\"},{\"type\":\"padding\",\"size\":7}]}";

/// How many bytes the record file has, the words, and how the run ends.
const SIZES: &str = "\
0 query;L;count,sum(.a);R -> 0 count 0|sum(.a) 0|
8 query;L;count,sum(.a);R -> 0 count 1|sum(.a) 0|
65528 query;L;count,sum(.a);R -> 0 count 8191|sum(.a) -3662|
65536 query;L;count,sum(.a);R -> 0 count 8192|sum(.a) -3645|
65541 query;L;count,sum(.a);R -> 6 ragged 5|
131080 query;L;count,sum(.a);R -> 0 count 16385|sum(.a) -7256|
200000 query;L;count,sum(.a);R -> 0 count 25000|sum(.a) -11051|
16 tally;L;.a;R -> 0 0 1|8 1|total 2|
16 group;L;.a;R -> 0 0 1|8 1|total 2|";

/// Guesses that are right, too small, too large, wrong by a byte or a word, or those of no record file at all.
fn guesses(count: u64) -> [u64; 13] {
    [
        0,
        1,
        8,
        65_536,
        count / 2,
        count.saturating_sub(8),
        count.saturating_sub(1),
        count,
        count.saturating_add(1),
        count.saturating_add(8),
        count.saturating_mul(3),
        RECORD_FILE_LIMIT + 1,
        u64::MAX,
    ]
}

/// Compares how a run over a record file of so many bytes ends with what its row tells, by each guess and by none.
fn row_ends_by_each<R>(rt: &R, count: u64, row: &str)
where
    R: Threads + Wait + Sync + RandomSource + AllocGlobal + Abort,
{
    let files = with_records(rt, EIGHT, &repeating(rt, count as usize));
    let mut files = Guessed { files, guess: None };
    row_ends(rt, &mut files, row, &FreeGate);
    for guess in guesses(count) {
        files.guess = Some(guess);
        row_ends(rt, &mut files, row, &FreeGate);
    }
}

#[test]
fn an_answer_does_not_depend_on_the_guess(rt: HostRuntime) {
    for row in SIZES.lines() {
        let (count, row) = row.split_once(' ').unwrap_or((row, ""));
        row_ends_by_each(&rt, count.parse().unwrap_or(0), row);
    }
}
