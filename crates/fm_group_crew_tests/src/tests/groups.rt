ghost use Rattle.std.specs.Prelude.{◌≡◌, ◌+◌, ◌*◌, ◌<◌, ◌≤◌};
ghost use Rattle.fm_rule_calls.specs.Told.{view_of_pass};
ghost use Rattle.fm_gate.specs.Needs.{IsOutside};
ghost use Rattle.fm_segment.specs.Access.{IsKnown};
ghost use Rattle.fm_group.specs.Table.{counter};

use crate::tests::pools::{Segments, fill, made, same, zeros};
use fm_base::{Kind, Refusal};
use fm_close::close;
use fm_group::{CountTable, Groups, PlaceOrder, Values, resolved_is_few};
use fm_group_crew::group_with;
use fm_io::{FreeGate, Gate};
use fm_lanes::ValueKind;
use fm_layout::Layout;
use fm_path::resolve;
use fm_rule::{Pass, Pool};
use std::alloc::{AllocGlobal, Global};
use std::process::Abort;
use std::sync::Wait;
use std::thread::Threads;

/// A table over values of a kind, each of which is a record.
fn table_of<R: Abort>(rt: &R, alloc: Global, kind: ValueKind, both: &Segments) -> CountTable
    ensures records { result.values.records ≡ both.now.records }
    ensures places { result.table ≡ both.now.places }
{
    resolved_is_few();
    let path = resolve(alloc, &Layout::value(kind), &[]).expect(rt, "a value");
    let records = both.records;
    let places = both.places;
    assert!(rt; path.root_size() > 0);
    assert!(rt; path.root_alignment() > 0);
    assert!(rt; path.root_size() % path.root_alignment() == 0);
    assert!(rt; records.size() % path.root_size() == 0);
    assert!(rt; records.first() % path.root_alignment() == 0);
    let values = Values::of(path, records);
    assert!(rt; !places.is_read_only());
    assert!(rt; places.arena() != records.arena());
    assert!(rt; places.first() % 8 == 0);
    assert!(rt; places.size() > 0);
    assert!(rt; places.size() % 16 == 0);
    CountTable::with_order(places, values, PlaceOrder::Mixed)
}

/// What so many passes answer.
pub(crate) fn grouped<R: Abort + AllocGlobal + Threads + Wait + Sync, G: Gate>(
    rt: &R,
    pool: &Pool,
    pass: &mut Pass,
    kind: ValueKind,
    both: &Segments,
    threads: u32,
    gate: &G,
) -> Result<Groups, Refusal>
    requires outside { IsOutside pool.now pass.old }
    requires known { IsKnown (view_of_pass pass.old) both.now.records }
    requires places { IsKnown (view_of_pass pass.old) both.now.places }
    requires some { 0 < threads }
    requires few { threads ≤ 16 }
    ensures outside { IsOutside pool.now pass.new }
    ensures known { IsKnown (view_of_pass pass.new) both.now.records }
    ensures places { IsKnown (view_of_pass pass.new) both.now.places }
{
    let table = table_of(rt, rt.alloc(), kind, both);
    group_with(rt, rt.alloc(), pool, pass, &table, threads, gate)
}

fn groups_are<R: Abort>(rt: &R, found: Result<Groups, Refusal>, wanted: &[(i64, u64)]) {
    let groups = found.expect(rt, "groups");
    same(rt, groups.len(), wanted.len());
    for k in 0..wanted.len() {
        assert!(rt; k < groups.len());
        same(rt, groups.at(k), wanted[k]);
    }
}

/// What so many threads answer of the longs, in a pool and a table of their own, whose places are as many as the longs.
fn longs_are<R: Abort + AllocGlobal + Threads + Wait + Sync>(
    rt: &R,
    longs: &[i64],
    threads: u32,
    wanted: &[(i64, u64)],
)
    requires some { 0 < threads }
    requires few { threads ≤ 16 }
{
    assert!(rt; longs.len() < 100);
    let (pool, mut pass) = made(rt, threads + 1);
    let many = longs.len() as u64;
    let both = zeros(
        rt,
        &pool,
        &mut pass,
        (Kind::Shared, Kind::Shared),
        many,
        many,
    );
    fill(rt, &pool, &mut pass, &both, longs);
    let found = grouped(
        rt,
        &pool,
        &mut pass,
        ValueKind::Long,
        &both,
        threads,
        &FreeGate,
    );
    groups_are(rt, found, wanted);
    same(rt, pool.whole(&mut pass), true);
}

/// A table that is as full as there are values.
#[test]
fn all_numbers_differ(rt: HostRuntime) {
    let longs = [5, -1, i64::MAX, 0, i64::MIN, 3, 2, -8];
    let wanted = [
        (i64::MIN, 1),
        (-8, 1),
        (-1, 1),
        (0, 1),
        (2, 1),
        (3, 1),
        (5, 1),
        (i64::MAX, 1),
    ];
    for threads in [1, 2, 3, 8, 16] {
        longs_are(&rt, &longs, threads, &wanted);
    }
}

#[test]
fn some_numbers_come_again(rt: HostRuntime) {
    let longs = [7, 9, 7, 7, -2, 9, 7, 7, 7, -2];
    for threads in [1, 2, 4, 16] {
        longs_are(&rt, &longs, threads, &[(-2, 2), (7, 6), (9, 2)]);
    }
}

/// What so many threads answer of longs that are 0.
fn zeros_are<R: Abort + AllocGlobal + Threads + Wait + Sync>(
    rt: &R,
    kinds: (Kind, Kind),
    sizes: (u64, u64),
    passes: u32,
    threads: u32,
    kind: ValueKind,
) -> Result<Groups, Refusal>
    requires longs { sizes.0 ≤ 512 }
    requires places { sizes.1 ≤ 256 }
    requires passes { 0 < passes }
    requires few_passes { passes < 65 }
    requires some { 0 < threads }
    requires few { threads ≤ 16 }
{
    let (pool, mut pass) = made(rt, passes);
    let both = zeros(rt, &pool, &mut pass, kinds, sizes.0, sizes.1);
    let found = grouped(rt, &pool, &mut pass, kind, &both, threads, &FreeGate);
    same(rt, pool.whole(&mut pass), true);
    found
}

const SHARED: (Kind, Kind) = (Kind::Shared, Kind::Shared);

#[test]
fn sixteen_passes_count_one_number(rt: HostRuntime) {
    let longs = zeros_are(&rt, SHARED, (512, 1), 17, 16, ValueKind::Long);
    groups_are(&rt, longs, &[(0, 512)]);
    let bytes = zeros_are(&rt, SHARED, (512, 256), 17, 16, ValueKind::Byte);
    groups_are(&rt, bytes, &[(0, 4096)]);
}

#[test]
fn sixteen_passes_count_nothing(rt: HostRuntime) {
    let none = zeros_are(&rt, SHARED, (0, 1), 17, 16, ValueKind::Long);
    groups_are(&rt, none, &[]);
}

#[test]
fn too_few_passes_count_nothing(rt: HostRuntime) {
    let refused = zeros_are(&rt, SHARED, (8, 8), 4, 4, ValueKind::Long);
    same(&rt, refused.err(), Some(Refusal::NoPass));
}

#[test]
fn a_confined_arena_is_not_counted(rt: HostRuntime) {
    for kinds in [
        (Kind::Confined, Kind::Shared),
        (Kind::Shared, Kind::Confined),
    ] {
        let refused = zeros_are(&rt, kinds, (8, 8), 3, 2, ValueKind::Long);
        same(&rt, refused.err(), Some(Refusal::WrongThread));
    }
}

/// Whether one thread counts or several, a number has no place where all have another's.
#[test]
fn a_table_is_full(rt: HostRuntime) {
    for threads in [1, 4] {
        let (pool, mut pass) = made(&rt, 5);
        let both = zeros(&rt, &pool, &mut pass, SHARED, 6, 4);
        fill(&rt, &pool, &mut pass, &both, &[1, 2, 3, 4, 5, 6]);
        let found = grouped(
            &rt,
            &pool,
            &mut pass,
            ValueKind::Long,
            &both,
            threads,
            &FreeGate,
        );
        same(&rt, found.err(), Some(Refusal::TableFull));
        same(&rt, pool.whole(&mut pass), true);
    }
}

#[test]
fn a_closed_arena_is_not_counted(rt: HostRuntime) {
    for of_records in [true, false] {
        let (pool, mut pass) = made(&rt, 3);
        let both = zeros(&rt, &pool, &mut pass, SHARED, 8, 8);
        let closed = if of_records {
            both.records
        } else {
            both.places
        };
        same(&rt, close(&rt, &pool, &mut pass, closed.arena()), Ok(()));
        let found = grouped(&rt, &pool, &mut pass, ValueKind::Long, &both, 2, &FreeGate);
        same(&rt, found.err(), Some(Refusal::Closed));
        same(&rt, pool.whole(&mut pass), true);
    }
}
