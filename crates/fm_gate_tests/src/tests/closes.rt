ghost use Rattle.std.specs.Prelude.{◌≡◌, ◌≢◌, ◌<◌, ◌≤◌, IfOk};
ghost use Rattle.fm_rule_facts.specs.Views.{span};
ghost use Rattle.fm_rule_facts.specs.Views.{IsKnown, given_of};
ghost use Rattle.fm_rule_calls.specs.Kept.{Lasts};
ghost use Rattle.fm_gate.specs.Needs.{CanAllocate, CanVisit, IsOutside};
ghost use Rattle.fm_arena.specs.Shares.{CanShare};
ghost use Rattle.fm_close.specs.Learnt.{CanWalk, IsToSweep, IsUnderWay, StandsAfter};
ghost use Rattle.fm_close.specs.Does.{after_visit};

mod crews;
mod finishing;
mod holds;
mod kinds;
mod reuse;
mod threads;

use crate::tests::compared::same;
use crate::tests::pools::{given, is_full, new_arena, pool_of};
use fm_base::{ArenaId, Kind, Refusal};
use fm_close::{Shutting, Visit, a_close_lasts, close, shut, sweep, visit};
use fm_gate::{a_hold_stands, allocate, enter, hold, is_alive, leave, open_arena, swap_if, unhold};
use fm_rule::{Pass, Pool};
use std::alloc::AllocGlobal;
use std::process::Abort;
use std::sync::Wait;

/// A pool of three passes, whose slots have one word each, and so many arenas one after another.
fn made_for<R: Abort + AllocGlobal>(rt: &R, slots: u32, generations: u32) -> (Pool, Pass)
    requires few { slots < 65 }
    requires some { 0 < slots }
    requires one { 0 < generations }
    ensures ready { CanShare result.0 result.1 }
    ensures wide { span result.0.shape ≡ 1 }
    ensures passes { result.0.shape.passes ≡ 3 }
{
    pool_of(rt, 3, slots, 1, generations)
}

/// Such a pool, whose slots have one arena each.
fn made<R: Abort + AllocGlobal>(rt: &R, slots: u32) -> (Pool, Pass)
    requires few { slots < 65 }
    requires some { 0 < slots }
    ensures ready { CanShare result.0 result.1 }
    ensures wide { span result.0.shape ≡ 1 }
    ensures passes { result.0.shape.passes ≡ 3 }
{
    made_for(rt, slots, 1)
}

/// Puts a number into the first word where that is 0, and answers the number found.
fn put(pool: &Pool, pass: &mut Pass, a: ArenaId, v: u64) -> Result<u64, Refusal>
    requires can { CanVisit pool.now pass.old a }
    requires given { 8 ≤ given_of pass.old a }
    ensures outside { IsOutside pool.now pass.new }
    ensures pages { pass.new.pages ≡ pass.old.pages }
    ensures lasts { Lasts pass.old pass.new }
{
    enter(pool, pass, a)?;
    let found = swap_if(pool, pass, 0, 0, v);
    leave(pool, pass);
    Ok(found)
}

/// Puts 9 into the first word of an arena that is new, and not 8 after that.
fn used<R: Abort + Wait>(rt: &R, pool: &Pool, pass: &mut Pass, a: ArenaId)
    requires can { CanVisit pool.now pass.old a }
    requires given { 8 ≤ given_of pass.old a }
    ensures { CanVisit pool.now pass.new a }
{
    same(rt, put(pool, pass, a, 9), Ok(0));
    same(rt, put(pool, pass, a, 8), Ok(9));
    same(rt, is_alive(pool, pass, a), Ok(true));
}

/// Closes an arena that nobody is inside, mark by mark.
fn walked<R: Abort>(rt: &R, pool: &Pool, pass: &mut Pass, a: ArenaId)
    requires { CanVisit pool.now pass.old a }
    ensures { CanVisit pool.now pass.new a }
{
    let mut s = shut(pool, pass, a).expect(rt, "alive");
    same(rt, s.arena(), a);
    same(rt, visit(pool, pass, &mut s), Visit::Next);
    same(rt, visit(pool, pass, &mut s), Visit::Next);
    same(rt, visit(pool, pass, &mut s), Visit::Ended);
    same(rt, s.is_ended(), true);
    sweep(pool, pass, s);
}

#[test]
fn one_pass_uses_the_only_slot_and_closes_it(rt: HostRuntime) {
    let (pool, mut pass) = made(&rt, 1);
    let a = given(&rt, &pool, &mut pass, Kind::Shared, 8);
    used(&rt, &pool, &mut pass, a);
    walked(&rt, &pool, &mut pass, a);
    same(&rt, enter(&pool, &mut pass, a), Err(Refusal::Closed));
    same(&rt, is_full(&rt, &pool, &mut pass), true);
}

#[test]
fn refused_closes_leave_what_was_there(rt: HostRuntime) {
    let (pool, mut pass) = made(&rt, 2);
    let a = new_arena(&rt, &pool, &mut pass, Kind::Shared);
    let global = new_arena(&rt, &pool, &mut pass, Kind::Global);
    let refused = Err(Refusal::CannotClose(Kind::Global));
    same(&rt, close(&rt, &pool, &mut pass, global), refused);
    same(&rt, close(&rt, &pool, &mut pass, a), Ok(()));
    same(&rt, close(&rt, &pool, &mut pass, a), Err(Refusal::Closed));
    same(&rt, is_alive(&pool, &mut pass, a), Ok(false));
    same(&rt, is_alive(&pool, &mut pass, global), Ok(true));
}

/// Tries to close an arena that is held, and answers what came of it.
fn close_held<R: Wait>(
    rt: &R,
    pool: &Pool,
    pass: &mut Pass,
    a: ArenaId,
) -> Result<Result<(), Refusal>, Refusal>
    requires { CanAllocate pool.now pass.old a }
    ensures { CanAllocate pool.now pass.new a }
{
    let held = hold(rt, pool, pass, a)?;
    let answer = close(rt, pool, pass, a);
    a_hold_stands();
    unhold(pool, pass, held);
    Ok(answer)
}

/// The arena takes no hold, and gives nothing.
fn is_over<R: Wait>(rt: &R, pool: &Pool, pass: &mut Pass, a: ArenaId) -> bool
    requires { CanAllocate pool.now pass.old a }
    ensures { CanAllocate pool.now pass.new a }
{
    let answer = close_held(rt, pool, pass, a);
    let given = allocate(rt, pool, pass, a, 1, 1);
    answer == Err(Refusal::Closed) && given == Err(Refusal::Closed)
}

#[test]
fn an_arena_is_closed_once_its_holds_are_spent(rt: HostRuntime) {
    let (pool, mut pass) = made(&rt, 1);
    let a = new_arena(&rt, &pool, &mut pass, Kind::Shared);
    let refused = Ok(Err(Refusal::Held(1)));
    same(&rt, close_held(&rt, &pool, &mut pass, a), refused);
    same(&rt, is_over(&rt, &pool, &mut pass, a), false);
    same(&rt, close(&rt, &pool, &mut pass, a), Ok(()));
    same(&rt, is_over(&rt, &pool, &mut pass, a), true);
}

/// Visits another arena in the midst of a close, or before the one that ended is swept.
fn look_beside(pool: &Pool, pass: &mut Pass, other: ArenaId, s: &Shutting) -> Result<bool, Refusal>
    requires outside { IsOutside pool.now pass.old }
    requires known { IsKnown pass.old other }
    ensures outside { IsOutside pool.now pass.new }
    ensures known { IsKnown pass.new other }
    ensures walks { IsUnderWay pass.old s.now → IsUnderWay pass.new s.now }
    ensures sweep { IsToSweep pass.old s.now → IsToSweep pass.new s.now }
{
    a_close_lasts();
    is_alive(pool, pass, other)
}

/// Visits another arena, which is alive, and then a mark.
fn step_beside<R: Abort>(
    rt: &R,
    pool: &Pool,
    pass: &mut Pass,
    other: ArenaId,
    s: &mut Shutting,
) -> Visit
    requires walk { CanWalk pool.now pass.old s.old }
    requires known { IsKnown pass.old other }
    ensures outside { IsOutside pool.now pass.new }
    ensures known { IsKnown pass.new other }
    ensures stands { StandsAfter pass.new s.new result }
    ensures close { s.new ≡ after_visit s.old result }
{
    same(rt, look_beside(pool, pass, other, s), Ok(true));
    visit(pool, pass, s)
}

/// Closes an arena mark by mark, and visits the other before each, and before the sweep.
fn walked_beside<R: Abort>(rt: &R, pool: &Pool, pass: &mut Pass, a: ArenaId, other: ArenaId)
    requires visit { CanVisit pool.now pass.old a }
    requires known { IsKnown pass.old other }
    ensures { CanVisit pool.now pass.new other }
{
    let mut s = shut(pool, pass, a).expect(rt, "alive");
    same(rt, step_beside(rt, pool, pass, other, &mut s), Visit::Next);
    same(rt, step_beside(rt, pool, pass, other, &mut s), Visit::Next);
    same(rt, step_beside(rt, pool, pass, other, &mut s), Visit::Ended);
    same(rt, look_beside(pool, pass, other, &s), Ok(true));
    sweep(pool, pass, s);
}

#[test]
fn another_arena_is_used_in_the_midst_of_a_close(rt: HostRuntime) {
    let (pool, mut pass) = made(&rt, 2);
    let a = new_arena(&rt, &pool, &mut pass, Kind::Shared);
    let b = new_arena(&rt, &pool, &mut pass, Kind::Confined);
    walked_beside(&rt, &pool, &mut pass, a, b);
    same(&rt, close(&rt, &pool, &mut pass, b), Ok(()));
}

/// Two arenas.
fn opened<R: Abort + Wait>(rt: &R, pool: &Pool, pass: &mut Pass) -> (ArenaId, ArenaId)
    requires outside { IsOutside pool.now pass.old }
    ensures outside { IsOutside pool.now pass.new }
    ensures known { IsKnown pass.new result.0 × IsKnown pass.new result.1 }
    ensures apart { result.0 ≢ result.1 }
{
    let a = open_arena(rt, pool, pass, Kind::Shared).expect(rt, "a slot");
    let b = open_arena(rt, pool, pass, Kind::Shared).expect(rt, "a slot");
    (a, b)
}

/// Shuts an arena in the midst of a close.
fn shut_beside(
    pool: &Pool,
    pass: &mut Pass,
    arena: ArenaId,
    other: &Shutting,
) -> Result<Shutting, Refusal>
    requires other { CanWalk pool.now pass.old other.now }
    requires known { IsKnown pass.old arena }
    requires apart { arena ≢ other.now.arena }
    ensures outside { IsOutside pool.now pass.new }
    ensures other { IsUnderWay pass.new other.now }
    ensures walks { IfOk result (λ s. IsUnderWay pass.new s) }
    ensures arena { IfOk result (λ s. s.arena ≡ arena) }
{
    a_close_lasts();
    shut(pool, pass, arena)
}

/// Visits a mark for one close in the midst of another.
fn visit_beside(pool: &Pool, pass: &mut Pass, s: &mut Shutting, other: &Shutting) -> Visit
    requires walk { CanWalk pool.now pass.old s.old }
    requires other { IsUnderWay pass.old other.now }
    requires apart { s.old.arena ≢ other.now.arena }
    ensures outside { IsOutside pool.now pass.new }
    ensures other { IsUnderWay pass.new other.now }
    ensures stands { StandsAfter pass.new s.new result }
    ensures close { s.new ≡ after_visit s.old result }
{
    a_close_lasts();
    visit(pool, pass, s)
}

/// Ends a close of which two marks are left.
fn ended<R: Abort>(rt: &R, pool: &Pool, pass: &mut Pass, s: Shutting)
    requires walk { CanWalk pool.now pass.old s }
    ensures outside { IsOutside pool.now pass.new }
    ensures pages { pass.new.pages ≡ pass.old.pages }
{
    let mut s = s;
    same(rt, visit(pool, pass, &mut s), Visit::Next);
    same(rt, visit(pool, pass, &mut s), Visit::Ended);
    sweep(pool, pass, s);
}

#[test]
fn two_arenas_are_closed_side_by_side(rt: HostRuntime) {
    let (pool, mut pass) = made(&rt, 2);
    let (a, b) = opened(&rt, &pool, &mut pass);
    let mut s = shut(&pool, &mut pass, a).expect(&rt, "alive");
    let mut t = shut_beside(&pool, &mut pass, b, &s).expect(&rt, "alive");
    same(&rt, visit_beside(&pool, &mut pass, &mut s, &t), Visit::Next);
    same(&rt, visit_beside(&pool, &mut pass, &mut t, &s), Visit::Next);
    same(&rt, visit_beside(&pool, &mut pass, &mut s, &t), Visit::Next);
    same(
        &rt,
        visit_beside(&pool, &mut pass, &mut s, &t),
        Visit::Ended,
    );
    sweep(&pool, &mut pass, s);
    ended(&rt, &pool, &mut pass, t);
}
