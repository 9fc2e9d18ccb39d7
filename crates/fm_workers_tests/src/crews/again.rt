ghost use Rattle.std.specs.Prelude.{◌<◌, ◌≤◌};
ghost use Rattle.fm_rule_calls.specs.Told.{view_of_pass};
ghost use Rattle.fm_gate.specs.Needs.{IsOutside};
ghost use Rattle.fm_segment.specs.Access.{IsKnown};

use super::tallies::{counts_at, held, zeros};
use super::{ANSWER, answers, made, refuses, stocked};
use crate::compared::same;
use fm_base::{Kind, Refusal};
use fm_io::FreeGate;
use fm_rule::{Pass, Pool};
use fm_segment::Segment;
use std::alloc::AllocGlobal;
use std::process::Abort;
use std::sync::Wait;
use std::thread::Threads;

/// So many times over one pool, a query by a crew of one pass, by one of two, and so on up to so many.
fn ask_often<R: Abort + AllocGlobal + Threads + Wait + Sync>(rt: &R, times: u32, most: u32)
    requires some { 0 < most }
    requires few { most ≤ 16 }
{
    let (pool, mut pass) = made(rt, most + 1, 8);
    let s = stocked(rt, &pool, &mut pass, Kind::Shared);
    for _turn in 0..times {
        for threads in 1..most + 1 {
            answers(rt, &pool, &mut pass, &s, threads, &FreeGate, ANSWER);
        }
    }
    same(rt, pool.whole(&mut pass), true);
}

/// Each draws the one number that there is beside the first, with its next term.
#[test]
fn queries_follow_each_other_on_two_passes(rt: HostRuntime) {
    ask_often(&rt, 10_000, 1);
}

#[test]
fn crews_of_each_size_follow_each_other(rt: HostRuntime) {
    ask_often(&rt, 2, 16);
}

/// While a pass is drawn beside it, a crew of three finds no number in a pool of four. Then the pass is gathered.
fn ask_beside<R: Abort + AllocGlobal + Threads + Wait + Sync>(
    rt: &R,
    pool: &Pool,
    pass: &mut Pass,
    s: &Segment,
)
    requires outside { IsOutside pool.now pass.old }
    requires known { IsKnown (view_of_pass pass.old) s.now }
    ensures outside { IsOutside pool.now pass.new }
    ensures known { IsKnown (view_of_pass pass.new) s.now }
{
    let other = pool.draw(rt, pass).expect(rt, "a number");
    refuses(rt, pool, pass, s, 3, Refusal::NoPass);
    pool.gather(pass, other);
}

#[test]
fn a_crew_may_have_what_numbers_are_free(rt: HostRuntime) {
    let (pool, mut pass) = made(&rt, 4, 8);
    let s = stocked(&rt, &pool, &mut pass, Kind::Shared);
    refuses(&rt, &pool, &mut pass, &s, 4, Refusal::NoPass);
    answers(&rt, &pool, &mut pass, &s, 3, &FreeGate, ANSWER);
    ask_beside(&rt, &pool, &mut pass, &s);
    answers(&rt, &pool, &mut pass, &s, 3, &FreeGate, ANSWER);
}

/// Each adds to the shared counts, and answers what it counted itself.
#[test]
fn tallies_follow_each_other(rt: HostRuntime) {
    let (pool, mut pass) = made(&rt, 3, 256);
    let s = stocked(&rt, &pool, &mut pass, Kind::Shared);
    let shared = zeros(&rt, &pool, &mut pass, Kind::Shared, &s);
    counts_at(&rt, &pool, &mut pass, &s, &shared, 2, &FreeGate, 255, 7);
    counts_at(&rt, &pool, &mut pass, &s, &shared, 2, &FreeGate, 255, 7);
    same(&rt, held(&rt, &pool, &mut pass, &shared, 255), 14);
}
