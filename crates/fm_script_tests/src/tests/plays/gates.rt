use super::printed_past;
use super::relay::Relay;
use crate::tests::compared::same;
use crate::tests::written::asking;
use fm_io_gates::{Meeting, Order, Recording};
use std::alloc::AllocGlobal;
use std::process::Abort;
use std::random::RandomSource;
use std::sync::Wait;
use std::thread::Threads;

/// Two workers meet in this order.
fn meet<R: Abort + AllocGlobal + Threads + Wait + Sync + RandomSource>(rt: &R, order: Order) {
    let rows =
        "first open a shared -> ok\n1 alive a -> true\n1 alive a -> true\n2 alive a -> true\n2 alive a -> true\n\
        last close a -> ok\n";
    let gate = Meeting::of(order);
    let text = asking(rt, "pool 1 1 8 1 1", rows);
    same(rt, printed_past(rt, text.as_str(), &gate).as_str(), rows);
    same(rt, gate.is_missed(), false);
    same(rt, gate.both_began_and_ended(), true);
}

/// A body that runs one worker after the other, or their lines in fixed turns, misses one in one of these runs.
#[test]
fn two_workers_meet(rt: HostRuntime) {
    meet(&rt, Order::Together);
    meet(&rt, Order::FirstLast);
    meet(&rt, Order::SecondLast);
}

fn passed<R: Abort + AllocGlobal>(rt: &R, gate: &Recording, wanted: &str) {
    let text = gate.text(rt.alloc()).expect(rt, "a text");
    same(rt, text.as_str(), wanted);
}

/// Each worker's lines pass the gate once, by their numbers. Those of pass 0 pass none.
#[test]
fn each_line_passes_once(rt: HostRuntime) {
    let text =
        "pool 1 1 8 1 1\nfirst open a shared\nfirst alloc a s 8 8\n1 alive a\n2 alive a\n1 get s long 0\n\
        2 get s long 0\n1 alive a\nlast close a\n";
    let wanted =
        "first open a shared -> ok\nfirst alloc a s 8 8 -> ok 0\n1 alive a -> true\n1 get s long 0 -> 0\n\
        1 alive a -> true\n2 alive a -> true\n2 get s long 0 -> 0\nlast close a -> ok\n";
    let gate = Recording::new(rt.alloc()).expect(&rt, "a record");
    same(&rt, printed_past(&rt, text, &gate).as_str(), wanted);
    passed(&rt, &gate, "1: +0 -0 +1 -1 +2 -2\n2: +0 -0 +1 -1\n");
}

/// A line that runs before its gate, or behind it, finds another number.
#[test]
fn a_line_runs_inside_its_gate(rt: HostRuntime) {
    let text =
        "pool 1 1 8 1 1\nfirst open a shared\nfirst alloc a s 8 8\n1 get s long 0\n2 add s long 0 7\nlast close a\n";
    let wanted =
        "first open a shared -> ok\nfirst alloc a s 8 8 -> ok 0\n1 get s long 0 -> 7\n2 add s long 0 7 -> 0\n\
        last close a -> ok\n";
    let gate = Relay::new();
    same(&rt, printed_past(&rt, text, &gate).as_str(), wanted);
    same(&rt, gate.is_missed(), false);
}
