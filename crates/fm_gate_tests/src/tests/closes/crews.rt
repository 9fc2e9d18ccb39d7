ghost use Rattle.std.specs.Prelude.{◌≡◌, ◌≤◌};
ghost use Rattle.fm_rule_facts.specs.Views.{given_of};
ghost use Rattle.fm_gate.specs.Needs.{CanAllocate, CanVisit, IsInside};
ghost use Rattle.fm_close.specs.Learnt.{CanWalk};
ghost use Rattle.fm_arena.specs.Shares.{CanShare};

use super::{ended, made, made_for, put};
use crate::tests::compared::same;
use crate::tests::pools::{drawn, given};
use fm_base::{ArenaId, Kind, Refusal};
use fm_close::{Shutting, Visit, close, shut, visit};
use fm_gate::{a_hold_stands, enter, hold, leave, load, store, unhold};
use fm_rule::{Pass, Pool};
use std::process::Abort;
use std::sync::Wait;

/// An arena of eight bytes, and two passes beside that know it.
fn drawn_twice<R: Abort + Wait>(rt: &R, pool: &Pool, pass: &mut Pass) -> (ArenaId, Pass, Pass)
    requires ready { CanShare pool.now pass.old }
    ensures pass { CanAllocate pool.now pass.new result.0 }
    ensures one { CanVisit pool.now result.1 result.0 }
    ensures given { 8 ≤ given_of result.1 result.0 }
    ensures two { CanVisit pool.now result.2 result.0 }
{
    let a = given(rt, pool, pass, Kind::Shared, 8);
    let one = drawn(rt, pool, pass);
    let two = drawn(rt, pool, pass);
    (a, one, two)
}

/// Comes into the arena.
fn come_in<R: Abort>(rt: &R, pool: &Pool, pass: &mut Pass, a: ArenaId)
    requires visit { CanVisit pool.now pass.old a }
    requires given { 8 ≤ given_of pass.old a }
    ensures inside { IsInside pool.now pass.new a }
    ensures given { 8 ≤ given_of pass.new a }
{
    same(rt, enter(pool, pass, a), Ok(()));
}

/// Stores into a word of the arena, loads it, and leaves.
fn act_and_leave(pool: &Pool, pass: &mut Pass, a: ArenaId) -> u64
    requires inside { IsInside pool.now pass.old a }
    requires given { 8 ≤ given_of pass.old a }
{
    store(pool, pass, 0, 9);
    let found = load(pool, pass, 0);
    leave(pool, pass);
    found
}

/// Shuts an arena that the pass of number 1 is inside, and finds it there.
fn found_inside<R: Abort>(rt: &R, pool: &Pool, pass: &mut Pass, a: ArenaId) -> Shutting
    requires { CanVisit pool.now pass.old a }
    ensures walk { CanWalk pool.now pass.new result }
    ensures pages { pass.new.pages ≡ pass.old.pages }
{
    let mut s = shut(pool, pass, a).expect(rt, "alive");
    same(rt, visit(pool, pass, &mut s), Visit::Next);
    same(rt, visit(pool, pass, &mut s), Visit::Inside(1));
    same(rt, visit(pool, pass, &mut s), Visit::Inside(1));
    s
}

#[test]
fn a_close_finds_the_pass_that_is_inside_and_the_slot_is_lent_again(rt: HostRuntime) {
    let (pool, mut pass) = made_for(&rt, 1, 2);
    let (a, mut one, mut two) = drawn_twice(&rt, &pool, &mut pass);
    come_in(&rt, &pool, &mut one, a);
    let s = found_inside(&rt, &pool, &mut pass, a);
    same(&rt, enter(&pool, &mut two, a), Err(Refusal::Closed));
    same(&rt, act_and_leave(&pool, &mut one, a), 9);
    ended(&rt, &pool, &mut pass, s);
    let b = given(&rt, &pool, &mut pass, Kind::Shared, 8);
    same(&rt, (b.slot, b.generation), (a.slot, 1));
    same(&rt, put(&pool, &mut pass, b, 7), Ok(0));
}

/// Closes an arena that two passes hold, and again after each hold is spent.
fn close_held_by_both<R: Abort + Wait>(
    rt: &R,
    pool: &Pool,
    pass: &mut Pass,
    other: &mut Pass,
    a: ArenaId,
) -> [Result<(), Refusal>; 3]
    requires visit { CanVisit pool.now pass.old a }
    requires other { CanVisit pool.now other.old a }
{
    a_hold_stands();
    let mine = hold(rt, pool, pass, a).expect(rt, "a hold");
    let its = hold(rt, pool, other, a).expect(rt, "a hold");
    let held_twice = close(rt, pool, pass, a);
    unhold(pool, pass, mine);
    let held_once = close(rt, pool, pass, a);
    unhold(pool, other, its);
    [held_twice, held_once, close(rt, pool, pass, a)]
}

#[test]
fn holds_of_two_passes_count_together(rt: HostRuntime) {
    let (pool, mut pass) = made(&rt, 1);
    let (a, mut one, _) = drawn_twice(&rt, &pool, &mut pass);
    same(
        &rt,
        close_held_by_both(&rt, &pool, &mut pass, &mut one, a),
        [Err(Refusal::Held(2)), Err(Refusal::Held(1)), Ok(())],
    );
}
