ghost use Rattle.std.specs.Prelude.{◌≡◌, ◌<◌, ◌≤◌};
ghost use Rattle.fm_rule_calls.specs.Told.{view_of_pass};
ghost use Rattle.fm_gate.specs.Needs.{IsOutside};
ghost use Rattle.fm_segment.specs.Access.{IsKnown};

use super::tallies::{counts_at, zeros};
use super::{ANSWER, answers, made, stocked};
use crate::compared::same;
use fm_base::Kind;
use fm_gate::{enter, leave, store};
use fm_io::Gate;
use fm_io_gates::{Meeting, Order, Recording};
use fm_rule::{Pass, Pool};
use fm_segment::Segment;
use std::alloc::AllocGlobal;
use std::process::Abort;
use std::sync::Wait;
use std::thread::{Threads, join_mut};

/// A query by so many threads past the gate.
fn asks_past<R: Abort + AllocGlobal + Threads + Wait + Sync, G: Gate>(
    rt: &R,
    threads: u32,
    gate: &G,
)
    requires some { 0 < threads }
    requires few { threads ≤ 16 }
{
    let (pool, mut pass) = made(rt, threads + 1, 8);
    let s = stocked(rt, &pool, &mut pass, Kind::Shared);
    answers(rt, &pool, &mut pass, &s, threads, gate, ANSWER);
}

/// A tally likewise.
fn tallies_past<R: Abort + AllocGlobal + Threads + Wait + Sync, G: Gate>(
    rt: &R,
    threads: u32,
    gate: &G,
)
    requires some { 0 < threads }
    requires few { threads ≤ 16 }
{
    let (pool, mut pass) = made(rt, threads + 1, 256);
    let s = stocked(rt, &pool, &mut pass, Kind::Shared);
    let shared = zeros(rt, &pool, &mut pass, Kind::Shared, &s);
    counts_at(rt, &pool, &mut pass, &s, &shared, threads, gate, 0, 43);
}

/// Whether nobody missed the other.
fn met<R: Abort>(rt: &R, gate: &Meeting) {
    same(rt, gate.is_missed(), false);
    same(rt, gate.both_began_and_ended(), true);
}

fn asks_at<R: Abort + AllocGlobal + Threads + Wait + Sync>(rt: &R, order: Order) {
    let gate = Meeting::of(order);
    asks_past(rt, 2, &gate);
    met(rt, &gate);
}

/// A body that runs one share after the other, in whatever order, misses a worker in one of these runs.
#[test]
fn two_workers_meet(rt: HostRuntime) {
    asks_at(&rt, Order::Together);
    asks_at(&rt, Order::FirstLast);
    asks_at(&rt, Order::SecondLast);
}

fn tallies_at<R: Abort + AllocGlobal + Threads + Wait + Sync>(rt: &R, order: Order) {
    let gate = Meeting::of(order);
    tallies_past(rt, 2, &gate);
    met(rt, &gate);
}

#[test]
fn two_workers_meet_at_a_tally(rt: HostRuntime) {
    tallies_at(&rt, Order::Together);
    tallies_at(&rt, Order::FirstLast);
    tallies_at(&rt, Order::SecondLast);
}

/// Whether four shares passed the gate, all of one worker.
fn four_calls<R: Abort + AllocGlobal>(rt: &R, gate: &Recording) {
    let text = gate.text(rt.alloc()).expect(rt, "a text");
    same(rt, text.as_str(), "1: +0 -0 +1 -1 +2 -2 +3 -3\n");
}

#[test]
fn each_share_is_one_call(rt: HostRuntime) {
    let gate = Recording::new(rt.alloc()).expect(&rt, "a record");
    asks_past(&rt, 1, &gate);
    four_calls(&rt, &gate);
}

#[test]
fn each_share_of_a_tally_is_one_call(rt: HostRuntime) {
    let gate = Recording::new(rt.alloc()).expect(&rt, "a record");
    tallies_past(&rt, 1, &gate);
    four_calls(&rt, &gate);
}

/// Another pass, which knows the segment too.
fn drawn<R: Abort + Wait>(rt: &R, pool: &Pool, pass: &mut Pass, s: &Segment) -> Pass
    requires outside { IsOutside pool.now pass.old }
    requires known { IsKnown (view_of_pass pass.old) s.now }
    ensures outside { IsOutside pool.now pass.new }
    ensures known { IsKnown (view_of_pass pass.new) s.now }
    ensures new_outside { IsOutside pool.now result }
    ensures new_known { IsKnown (view_of_pass result) s.now }
{
    pool.draw(rt, pass).expect(rt, "a number")
}

/// Changes the first record as worker 2 would, in its first call.
fn change<R: Abort + Wait>(rt: &R, pool: &Pool, pass: &mut Pass, s: &Segment, gate: &Meeting)
    requires outside { IsOutside pool.now pass.old }
    requires known { IsKnown (view_of_pass pass.old) s.now }
    requires size { s.now.size ≡ 64 }
{
    gate.before(rt, 2, 0);
    enter(pool, pass, s.arena()).expect(rt, "open");
    store(pool, pass, 0, 0x0000_03e8_0000_0001);
    leave(pool, pass);
    gate.after(2, 0);
    gate.before(rt, 2, 1);
}

/// A body that leaves the gate before it has read its share reads what was changed then.
#[test]
fn a_share_is_read_before_the_gate_is_left(rt: HostRuntime) {
    let gate = Meeting::of(Order::SecondNext);
    let (pool, mut pass) = made(&rt, 3, 8);
    let s = stocked(&rt, &pool, &mut pass, Kind::Shared);
    let mut other = drawn(&rt, &pool, &mut pass, &s);
    let ((), ()) = join_mut(
        &rt,
        &mut || answers(&rt, &pool, &mut pass, &s, 1, &gate, ANSWER),
        &mut || change(&rt, &pool, &mut other, &s, &gate),
    );
    same(&rt, gate.is_missed(), false);
}
