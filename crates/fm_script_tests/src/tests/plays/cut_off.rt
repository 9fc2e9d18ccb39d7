use super::printed;
use crate::tests::compared::same;
use crate::tests::written::push;
use std::alloc::AllocGlobal;
use std::process::Abort;
use std::random::RandomSource;
use std::sync::Wait;
use std::thread::Threads;

/// How often the first worker reads.
const READS: u32 = 1_000;

/// A script whose first worker reads, while its second has this line.
fn reading<R: Abort + AllocGlobal>(rt: &R, close: &str) -> String {
    let mut text = String::new(rt.alloc());
    push(
        rt,
        &mut text,
        "pool 1 1 8 1 1\nfirst open a shared\nfirst alloc a s 8 8\n",
    );
    for _ in 0..READS {
        push(rt, &mut text, "1 get s long 0\n");
    }
    push(rt, &mut text, close);
    push(rt, &mut text, "\n");
    text
}

/// Whether a read was refused, where the line is one.
fn is_refused(line: &str) -> Option<bool> {
    match line {
        "1 get s long 0 -> 0" => Some(false),
        "1 get s long 0 -> refused 1" => Some(true),
        _ => None,
    }
}

/// Each read is answered whole or refused, and behind the first refusal all are. The line answers so.
fn reads_stay_refused<R: Abort + AllocGlobal + Threads + Wait + Sync + RandomSource>(
    rt: &R,
    close: &str,
    answered: &str,
) {
    let report = printed(rt, reading(rt, close).as_str());
    let mut reads: u32 = 0;
    let mut is_closed = false;
    for line in report.as_str().lines() {
        if let Some(refused) = is_refused(line) {
            same(rt, is_closed && !refused, false);
            is_closed = refused;
            reads = reads.saturating_add(1);
        }
    }
    same(rt, reads, READS);
    same(rt, report.as_str().ends_with(answered), true);
}

#[test]
fn reads_stay_refused_behind_a_close(rt: HostRuntime) {
    reads_stay_refused(&rt, "2 close a", "2 close a -> ok\n");
    reads_stay_refused(&rt, "2 closepoll a", "2 closepoll a -> ok\n");
}
