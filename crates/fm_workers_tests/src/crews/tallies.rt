ghost use Rattle.std.specs.Prelude.{◌≡◌, ◌≢◌, ◌<◌, ◌≤◌, []};
ghost use Rattle.fm_rule_calls.specs.Told.{view_of_pass};
ghost use Rattle.fm_gate.specs.Needs.{IsOutside};
ghost use Rattle.fm_segment.specs.Access.{IsKnown};

use super::{fresh, made, stocked};
use crate::compared::same;
use crate::layouts::{query_over, sequence};
use fm_base::{Kind, Refusal};
use fm_close::close;
use fm_gate::{enter, leave, load};
use fm_io::{FreeGate, Gate};
use fm_lanes::ValueKind;
use fm_layout::Layout;
use fm_records::Query;
use fm_rule::{Pass, Pool};
use fm_segment::Segment;
use fm_workers::{Counts, print_counts, tally_with};
use std::alloc::AllocGlobal;
use std::process::Abort;
use std::sync::Wait;
use std::thread::Threads;

/// Zeros for 256 counts, in a fresh arena beside that of a segment.
pub(crate) fn zeros<R: Abort + Wait>(
    rt: &R,
    pool: &Pool,
    pass: &mut Pass,
    kind: Kind,
    beside: &Segment,
) -> Segment
    requires outside { IsOutside pool.now pass.old }
    requires no_page { pass.old.pages ≡ [] }
    requires there { IsKnown (view_of_pass pass.old) beside.now }
    ensures outside { IsOutside pool.now pass.new }
    ensures there { IsKnown (view_of_pass pass.new) beside.now }
    ensures known { IsKnown (view_of_pass pass.new) result }
    ensures first { result.first ≡ 0 }
    ensures size { result.size ≡ 2048 }
{
    fresh(rt, pool, pass, kind, 2048)
}

/// A query over records of eight bytes, or booleans.
fn query_of<R: Abort + AllocGlobal>(rt: &R, kind: ValueKind, text: &str) -> Query {
    query_over(rt, text, &sequence(rt, 8, Layout::value(kind)))
}

/// What so many passes count.
fn tallied<R: Abort + AllocGlobal + Threads + Wait + Sync, G: Gate>(
    rt: &R,
    pool: &Pool,
    pass: &mut Pass,
    q: &Query,
    s: &Segment,
    counts: &Segment,
    threads: u32,
    gate: &G,
) -> Result<Counts, Refusal>
    requires outside { IsOutside pool.now pass.old }
    requires known { IsKnown (view_of_pass pass.old) s.now }
    requires counts_known { IsKnown (view_of_pass pass.old) counts.now }
    requires first { counts.now.first ≡ 0 }
    requires size { counts.now.size ≡ 2048 }
    requires some { 0 < threads }
    requires few { threads ≤ 16 }
    ensures outside { IsOutside pool.now pass.new }
    ensures known { IsKnown (view_of_pass pass.new) s.now }
    ensures counts_known { IsKnown (view_of_pass pass.new) counts.now }
{
    same(rt, s.first() % q.record_alignment(), 0);
    same(rt, counts.is_read_only(), false);
    same(rt, counts.arena() == s.arena(), false);
    tally_with(rt, rt.alloc(), pool, pass, q, s, counts, threads, gate)
}

pub(crate) fn counted<R: Abort + AllocGlobal + Threads + Wait + Sync, G: Gate>(
    rt: &R,
    pool: &Pool,
    pass: &mut Pass,
    q: &Query,
    s: &Segment,
    counts: &Segment,
    threads: u32,
    gate: &G,
) -> Counts
    requires outside { IsOutside pool.now pass.old }
    requires known { IsKnown (view_of_pass pass.old) s.now }
    requires counts_known { IsKnown (view_of_pass pass.old) counts.now }
    requires first { counts.now.first ≡ 0 }
    requires size { counts.now.size ≡ 2048 }
    requires some { 0 < threads }
    requires few { threads ≤ 16 }
    ensures outside { IsOutside pool.now pass.new }
    ensures known { IsKnown (view_of_pass pass.new) s.now }
    ensures counts_known { IsKnown (view_of_pass pass.new) counts.now }
{
    tallied(rt, pool, pass, q, s, counts, threads, gate).expect(rt, "counts")
}

/// How often they count the byte of this place.
pub(crate) fn counts_at<R: Abort + AllocGlobal + Threads + Wait + Sync, G: Gate>(
    rt: &R,
    pool: &Pool,
    pass: &mut Pass,
    s: &Segment,
    counts: &Segment,
    threads: u32,
    gate: &G,
    place: usize,
    wanted: u64,
)
    requires outside { IsOutside pool.now pass.old }
    requires known { IsKnown (view_of_pass pass.old) s.now }
    requires counts_known { IsKnown (view_of_pass pass.old) counts.now }
    requires first { counts.now.first ≡ 0 }
    requires size { counts.now.size ≡ 2048 }
    requires some { 0 < threads }
    requires few { threads ≤ 16 }
    requires within { place < 256 }
    ensures outside { IsOutside pool.now pass.new }
    ensures known { IsKnown (view_of_pass pass.new) s.now }
    ensures counts_known { IsKnown (view_of_pass pass.new) counts.now }
{
    let q = query_of(rt, ValueKind::Byte, "list([])");
    let found = counted(rt, pool, pass, &q, s, counts, threads, gate);
    same(rt, (found.at(place), place), (wanted, place));
}

fn not_counted<R: Abort + AllocGlobal + Threads + Wait + Sync>(
    rt: &R,
    pool: &Pool,
    pass: &mut Pass,
    text: &str,
    s: &Segment,
    counts: &Segment,
    threads: u32,
    wanted: Refusal,
)
    requires outside { IsOutside pool.now pass.old }
    requires known { IsKnown (view_of_pass pass.old) s.now }
    requires counts_known { IsKnown (view_of_pass pass.old) counts.now }
    requires first { counts.now.first ≡ 0 }
    requires size { counts.now.size ≡ 2048 }
    requires some { 0 < threads }
    requires few { threads ≤ 16 }
    ensures outside { IsOutside pool.now pass.new }
    ensures known { IsKnown (view_of_pass pass.new) s.now }
    ensures counts_known { IsKnown (view_of_pass pass.new) counts.now }
{
    let q = query_of(rt, ValueKind::Byte, text);
    let refused = tallied(rt, pool, pass, &q, s, counts, threads, &FreeGate);
    same(rt, refused.err(), Some(wanted));
}

/// What the shared count of this place holds.
pub(crate) fn held<R: Abort>(
    rt: &R,
    pool: &Pool,
    pass: &mut Pass,
    counts: &Segment,
    place: u64,
) -> u64
    requires outside { IsOutside pool.now pass.old }
    requires known { IsKnown (view_of_pass pass.old) counts.now }
    requires first { counts.now.first ≡ 0 }
    requires size { counts.now.size ≡ 2048 }
    requires within { place < 256 }
{
    enter(pool, pass, counts.arena()).expect(rt, "open");
    let found = load(pool, pass, place);
    leave(pool, pass);
    found
}

/// How often each byte comes in the records.
const COUNTED: &str = "-8 1\n-1 7\n0 43\n1 1\n2 2\n3 2\n4 1\n5 2\n6 1\n7 2\n8 1\n9 1\ntotal 64\n";

fn prints_counts<R: Abort + AllocGlobal>(rt: &R, counts: &Counts, wanted: &str) {
    let text = print_counts(rt.alloc(), counts);
    same(rt, text.as_deref().ok(), Some(wanted));
}

#[test]
fn two_passes_count_bytes(rt: HostRuntime) {
    let q = query_of(&rt, ValueKind::Byte, "list([])");
    let (pool, mut pass) = made(&rt, 3, 256);
    let s = stocked(&rt, &pool, &mut pass, Kind::Shared);
    let shared = zeros(&rt, &pool, &mut pass, Kind::Shared, &s);
    let counts = counted(&rt, &pool, &mut pass, &q, &s, &shared, 2, &FreeGate);
    prints_counts(&rt, &counts, COUNTED);
    same(&rt, held(&rt, &pool, &mut pass, &shared, 255), 7);
}

#[test]
fn sixteen_passes_count_booleans(rt: HostRuntime) {
    let q = query_of(&rt, ValueKind::Boolean, "list([])");
    let (pool, mut pass) = made(&rt, 17, 256);
    let s = stocked(&rt, &pool, &mut pass, Kind::Shared);
    let shared = zeros(&rt, &pool, &mut pass, Kind::Shared, &s);
    let counts = counted(&rt, &pool, &mut pass, &q, &s, &shared, 16, &FreeGate);
    same(&rt, counts.at(0), 43);
    same(&rt, counts.at(1), 21);
    same(&rt, counts.at(255), 0);
    same(&rt, pool.whole(&mut pass), true);
}

/// A query that can be tallied.
const LISTED: &str = "list([])";

#[test]
fn tallies_are_refused(rt: HostRuntime) {
    let (pool, mut pass) = made(&rt, 4, 256);
    let s = stocked(&rt, &pool, &mut pass, Kind::Shared);
    let shared = zeros(&rt, &pool, &mut pass, Kind::Shared, &s);
    not_counted(
        &rt,
        &pool,
        &mut pass,
        LISTED,
        &s,
        &shared,
        4,
        Refusal::NoPass,
    );
    let ragged = s.as_slice(0, 20).expect(&rt, "two records and a half");
    not_counted(
        &rt,
        &pool,
        &mut pass,
        "sum([])",
        &ragged,
        &shared,
        2,
        Refusal::Unsupported,
    );
    not_counted(
        &rt,
        &pool,
        &mut pass,
        LISTED,
        &ragged,
        &shared,
        2,
        Refusal::Ragged(4),
    );
}

#[test]
fn closed_counts_are_not_added_to(rt: HostRuntime) {
    let (pool, mut pass) = made(&rt, 3, 256);
    let s = stocked(&rt, &pool, &mut pass, Kind::Shared);
    let shared = zeros(&rt, &pool, &mut pass, Kind::Shared, &s);
    same(&rt, close(&rt, &pool, &mut pass, shared.arena()), Ok(()));
    not_counted(
        &rt,
        &pool,
        &mut pass,
        LISTED,
        &s,
        &shared,
        2,
        Refusal::Closed,
    );
}

#[test]
fn confined_counts_are_not_added_to(rt: HostRuntime) {
    let (pool, mut pass) = made(&rt, 3, 256);
    let s = stocked(&rt, &pool, &mut pass, Kind::Shared);
    let own = zeros(&rt, &pool, &mut pass, Kind::Confined, &s);
    not_counted(
        &rt,
        &pool,
        &mut pass,
        LISTED,
        &s,
        &own,
        2,
        Refusal::WrongThread,
    );
}
