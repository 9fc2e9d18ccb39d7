use crate::tests::compared::same;
use crate::tests::endings::row_ends;
use crate::tests::files::with_records;
use fm_io::{FreeGate, MemFiles};
use fm_io_gates::{Meeting, Order};
use fm_top_demo::made_records;
use std::alloc::AllocGlobal;
use std::process::Abort;

/// The layout of records that are made.
const MADE: &str =
    "{\"type\":\"struct\",\"members\":[{\"type\":\"int\",\"name\":\"id\"},{\"type\":\"short\",\"name\":\"kind\"},\
    {\"type\":\"padding\",\"size\":2},{\"type\":\"long\",\"name\":\"amount\"}]}";

/// Eight chunks of them.
fn made<R: AllocGlobal + Abort>(rt: &R) -> MemFiles {
    let records = made_records(rt.alloc(), 500_000).expect(rt, "memory");
    with_records(rt, MADE, &records)
}

/// What is asked of them and answered by one worker and by many.
const ANSWERED: &str = "\
stream;--threads;1;L;count,sum(.amount),min(.amount),max(.amount);R -> 0 count 500000|sum(.amount) 400241|min(.amount) -50000|max(.amount) 50002|
stream;--threads;2;L;count,sum(.amount),min(.amount),max(.amount);R -> 0 count 500000|sum(.amount) 400241|min(.amount) -50000|max(.amount) 50002|
stream;--threads;8;L;count,sum(.amount),min(.amount),max(.amount);R -> 0 count 500000|sum(.amount) 400241|min(.amount) -50000|max(.amount) 50002|
stream;--threads;16;L;count,sum(.amount),min(.amount),max(.amount);R -> 0 count 500000|sum(.amount) 400241|min(.amount) -50000|max(.amount) 50002|";

#[test]
fn eight_chunks_are_answered_by_any_crew(rt: HostRuntime) {
    let mut files = made(&rt);
    for row in ANSWERED.lines() {
        row_ends(&rt, &mut files, row, &FreeGate);
    }
}

#[test]
fn two_workers_of_a_stream_are_at_work_at_once(rt: HostRuntime) {
    let row = ANSWERED.lines().nth(1).unwrap_or("");
    let gate = Meeting::of(Order::Together);
    row_ends(&rt, &mut made(&rt), row, &gate);
    same(&rt, gate.both_began_and_ended(), true);
    same(&rt, gate.is_missed(), false);
}
