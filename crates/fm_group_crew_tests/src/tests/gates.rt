ghost use Rattle.std.specs.Prelude.{◌<◌, ◌≤◌};
ghost use Rattle.fm_rule_calls.specs.Told.{view_of_pass};
ghost use Rattle.fm_gate.specs.Needs.{IsOutside};
ghost use Rattle.fm_segment.specs.Access.{IsKnown};

use crate::tests::groups::grouped;
use crate::tests::pools::{Segments, made, same, zeros};
use fm_base::{Kind, Refusal};
use fm_close::close;
use fm_io::Gate;
use fm_io_gates::{Meeting, Order, Recording};
use fm_lanes::ValueKind;
use fm_rule::{Pass, Pool};
use std::alloc::AllocGlobal;
use std::process::Abort;
use std::sync::Wait;
use std::thread::{Threads, join_mut};

/// Groups by so many threads past the gate.
fn groups_past<R: Abort + AllocGlobal + Threads + Wait + Sync, G: Gate>(
    rt: &R,
    threads: u32,
    gate: &G,
)
    requires some { 0 < threads }
    requires few { threads ≤ 16 }
{
    let (pool, mut pass) = made(rt, threads + 1);
    let both = zeros(rt, &pool, &mut pass, (Kind::Shared, Kind::Shared), 64, 1);
    let found = grouped(rt, &pool, &mut pass, ValueKind::Long, &both, threads, gate);
    let groups = found.expect(rt, "groups");
    same(rt, groups.len(), 1);
}

/// A body that counts one share after the other, in whatever order, misses a worker in one of these runs.
#[test]
fn two_workers_meet(rt: HostRuntime) {
    for order in [Order::Together, Order::FirstLast, Order::SecondLast] {
        let gate = Meeting::of(order);
        groups_past(&rt, 2, &gate);
        same(&rt, gate.is_missed(), false);
        same(&rt, gate.both_began_and_ended(), true);
    }
}

#[test]
fn each_share_is_call_0_of_its_worker(rt: HostRuntime) {
    let gate = Recording::new(rt.alloc()).expect(&rt, "a record");
    groups_past(&rt, 3, &gate);
    let text = gate.text(rt.alloc()).expect(&rt, "a text");
    same(&rt, text.as_str(), "1: +0 -0\n2: +0 -0\n3: +0 -0\n");
}

/// Another pass, which knows both segments too.
fn drawn<R: Abort + Wait>(rt: &R, pool: &Pool, pass: &mut Pass, both: &Segments) -> Pass
    requires outside { IsOutside pool.now pass.old }
    requires known { IsKnown (view_of_pass pass.old) both.now.records }
    requires places { IsKnown (view_of_pass pass.old) both.now.places }
    ensures outside { IsOutside pool.now pass.new }
    ensures known { IsKnown (view_of_pass pass.new) both.now.records }
    ensures places { IsKnown (view_of_pass pass.new) both.now.places }
    ensures new_outside { IsOutside pool.now result }
    ensures new_places { IsKnown (view_of_pass result) both.now.places }
{
    pool.draw(rt, pass).expect(rt, "a number")
}

/// Closes the table's arena as worker 2 would, in its first call.
fn close_places<R: Abort + Wait>(
    rt: &R,
    pool: &Pool,
    pass: &mut Pass,
    both: &Segments,
    gate: &Meeting,
)
    requires outside { IsOutside pool.now pass.old }
    requires places { IsKnown (view_of_pass pass.old) both.now.places }
{
    gate.before(rt, 2, 0);
    same(rt, close(rt, pool, pass, both.places.arena()), Ok(()));
    gate.after(2, 0);
    gate.before(rt, 2, 1);
}

/// One worker's groups, which finds an arena closed.
fn finds_closed<R: Abort + AllocGlobal + Threads + Wait + Sync, G: Gate>(
    rt: &R,
    pool: &Pool,
    pass: &mut Pass,
    both: &Segments,
    gate: &G,
)
    requires outside { IsOutside pool.now pass.old }
    requires known { IsKnown (view_of_pass pass.old) both.now.records }
    requires places { IsKnown (view_of_pass pass.old) both.now.places }
{
    let found = grouped(rt, pool, pass, ValueKind::Long, both, 1, gate);
    same(rt, found.err(), Some(Refusal::Closed));
}

/// All values are counted by then, so it is the reading that is refused.
#[test]
fn a_table_is_closed_before_it_is_read(rt: HostRuntime) {
    let gate = Meeting::of(Order::SecondNext);
    let (pool, mut pass) = made(&rt, 3);
    let both = zeros(&rt, &pool, &mut pass, (Kind::Shared, Kind::Shared), 8, 1);
    let mut other = drawn(&rt, &pool, &mut pass, &both);
    let ((), ()) = join_mut(
        &rt,
        &mut || finds_closed(&rt, &pool, &mut pass, &both, &gate),
        &mut || close_places(&rt, &pool, &mut other, &both, &gate),
    );
    same(&rt, gate.is_missed(), false);
}
