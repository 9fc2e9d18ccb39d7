ghost use Rattle.fm_gate.specs.Needs.{CanVisit};
ghost use Rattle.fm_gate_tests.specs.Holds.{AreHeld};

use super::made;
use crate::tests::compared::same;
use crate::tests::pools::{drawn, new_arena};
use fm_base::{ArenaId, Kind, Refusal};
use fm_gate::{Hold, hold, is_alive, unhold};
use fm_rule::{Pass, Pool};
use std::process::Abort;
use std::sync::Wait;
use std::thread::{Threads, join_mut};

/// Takes a hold, which is kept.
fn hold_more<R: Abort + Wait>(
    rt: &R,
    pool: &Pool,
    pass: &mut Pass,
    a: ArenaId,
    held: &mut Vec<Hold>,
) -> Result<(), Refusal>
    requires { AreHeld pool.now pass.old a held.old.items }
    ensures { AreHeld pool.now pass.new a held.new.items }
{
    held.reserve(1).expect(rt, "memory");
    let more = hold(rt, pool, pass, a)?;
    held.push_reserved(more);
    Ok(())
}

/// Takes so many holds, which are kept.
fn take_holds<R: Abort + Wait>(
    rt: &R,
    pool: &Pool,
    pass: &mut Pass,
    a: ArenaId,
    times: u32,
    held: &mut Vec<Hold>,
) -> Result<(), Refusal>
    requires { AreHeld pool.now pass.old a held.old.items }
    ensures { AreHeld pool.now pass.new a held.new.items }
{
    for _ in 0..times {
        hold_more(rt, pool, pass, a, held)?;
    }
    Ok(())
}

/// Whether the arena is alive while it is held.
fn is_alive_held(
    pool: &Pool,
    pass: &mut Pass,
    a: ArenaId,
    held: &Vec<Hold>,
) -> Result<bool, Refusal>
    requires { AreHeld pool.now pass.old a held.now.items }
    ensures { AreHeld pool.now pass.new a held.now.items }
{
    is_alive(pool, pass, a)
}

/// Spends all holds.
fn spend_all(pool: &Pool, pass: &mut Pass, a: ArenaId, held: Vec<Hold>)
    requires { AreHeld pool.now pass.old a held.items }
    ensures { CanVisit pool.now pass.new a }
{
    let mut left = held;
    while let Some(one) = left.pop() {
        unhold(pool, pass, one);
    }
    left.destroy_empty();
}

#[test]
fn an_arena_has_65535_holds_at_most(rt: HostRuntime) {
    let (pool, mut pass) = made(&rt, 1);
    let a = new_arena(&rt, &pool, &mut pass, Kind::Global);
    let mut held = Vec::new(rt.alloc());
    same(
        &rt,
        take_holds(&rt, &pool, &mut pass, a, 65_535, &mut held),
        Ok(()),
    );
    same(
        &rt,
        take_holds(&rt, &pool, &mut pass, a, 1, &mut held),
        Err(Refusal::TooManyHolds),
    );
    same(&rt, is_alive_held(&pool, &mut pass, a, &held), Ok(true));
    spend_all(&pool, &mut pass, a, held);
}

/// Two passes take 30,000 holds each at once, which are kept.
fn take_at_once<R: Abort + Threads + Wait + Sync>(
    rt: &R,
    pool: &Pool,
    pass: &mut Pass,
    other: &mut Pass,
    a: ArenaId,
    ours: &mut Vec<Hold>,
    theirs: &mut Vec<Hold>,
) -> (Result<(), Refusal>, Result<(), Refusal>)
    requires ours { AreHeld pool.now pass.old a ours.old.items }
    requires theirs { AreHeld pool.now other.old a theirs.old.items }
    ensures ours { AreHeld pool.now pass.new a ours.new.items }
    ensures theirs { AreHeld pool.now other.new a theirs.new.items }
{
    join_mut(
        rt,
        &mut || take_holds(rt, pool, pass, a, 30_000, ours),
        &mut || take_holds(rt, pool, other, a, 30_000, theirs),
    )
}

/// The session word counts up until both have their holds, so who tries a stale one again never ends.
#[test]
fn two_passes_take_holds_of_one_arena_at_once(rt: HostRuntime) {
    let (pool, mut pass) = made(&rt, 1);
    let a = new_arena(&rt, &pool, &mut pass, Kind::Shared);
    let mut other = drawn(&rt, &pool, &mut pass);
    let mut ours = Vec::new(rt.alloc());
    let mut theirs = Vec::new(rt.alloc());
    let both = take_at_once(&rt, &pool, &mut pass, &mut other, a, &mut ours, &mut theirs);
    same(&rt, both, (Ok(()), Ok(())));
    spend_all(&pool, &mut pass, a, ours);
    spend_all(&pool, &mut other, a, theirs);
}
