use crate::tests::endings::row_ends;
use crate::tests::files::files;
use fm_io::FreeGate;
use std::alloc::AllocGlobal;
use std::process::Abort;
use std::random::RandomSource;
use std::sync::Wait;
use std::thread::Threads;

/// Runs that ask for a file which isn't there, where a star stands for its name.
const MISSING: &str = "\
query;*;count;Sales -> 2 missing *|
query;Sale;count;* -> 2 missing *|
run;* -> 2 missing *|";

/// Compares how these runs end for a name of so many bytes.
fn is_missing<R>(rt: &R, length: usize)
where
    R: Threads + Wait + Sync + RandomSource + AllocGlobal + Abort,
{
    let name = "n".repeat(rt.alloc(), length).expect(rt, "memory");
    let table = MISSING.replace(rt.alloc(), "*", &name).expect(rt, "memory");
    let mut files = files(rt, u64::MAX, usize::MAX);
    for row in table.lines() {
        row_ends(rt, &mut files, row, &FreeGate);
    }
}

// The host's system takes no names of 4,096 bytes.
#[test]
fn a_missing_file_is_told_however_long_its_name(rt: HostRuntime) {
    is_missing(&rt, 4_096);
    is_missing(&rt, 65_537);
}
