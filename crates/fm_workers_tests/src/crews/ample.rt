ghost use Rattle.std.specs.Prelude.{◌<◌, ◌≤◌};

use super::tallies::{counted, zeros};
use super::{asked, fresh, made};
use crate::compared::same;
use crate::layouts::query_over;
use fm_base::Kind;
use fm_io::FreeGate;
use fm_lanes::ValueKind;
use fm_layout::Layout;
use std::alloc::AllocGlobal;
use std::process::Abort;
use std::sync::Wait;
use std::thread::Threads;

/// So many records, each a byte, are counted by so many passes.
fn counts_many<R: Abort + AllocGlobal + Threads + Wait + Sync>(rt: &R, count: u64, threads: u32)
    requires count { count ≤ 131072 }
    requires some { 0 < threads }
    requires few { threads ≤ 16 }
{
    let q = query_over(rt, "list(.)", &Layout::value(ValueKind::Byte));
    let (pool, mut pass) = made(rt, 17, 16_384);
    let s = fresh(rt, &pool, &mut pass, Kind::Shared, count);
    let shared = zeros(rt, &pool, &mut pass, Kind::Shared, &s);
    let counts = counted(rt, &pool, &mut pass, &q, &s, &shared, threads, &FreeGate);
    same(rt, (counts.at(0), threads), (count, threads));
}

/// About as many records as are listed at once, and more.
#[test]
fn many_bytes_are_counted(rt: HostRuntime) {
    counts_many(&rt, 65_535, 1);
    counts_many(&rt, 65_536, 1);
    counts_many(&rt, 65_537, 1);
    counts_many(&rt, 70_000, 7);
    counts_many(&rt, 70_000, 16);
}

fn lists_many<R: Abort + AllocGlobal + Threads + Wait + Sync>(rt: &R, threads: u32)
    requires some { 0 < threads }
    requires few { threads ≤ 16 }
{
    let q = query_over(rt, "count,list(.)", &Layout::value(ValueKind::Byte));
    let (pool, mut pass) = made(rt, 17, 16_384);
    let s = fresh(rt, &pool, &mut pass, Kind::Shared, 70_000);
    let text = asked(rt, &pool, &mut pass, &q, &s, threads, &FreeGate).expect(rt, "an answer");
    same(rt, text.starts_with(b"count 70000\nlist(.) 0 0 "), true);
    same(rt, text.len(), 20 + 2 * 70_000);
}

#[test]
fn many_bytes_are_listed(rt: HostRuntime) {
    lists_many(&rt, 7);
    lists_many(&rt, 16);
}
