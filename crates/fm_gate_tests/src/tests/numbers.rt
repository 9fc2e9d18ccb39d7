//! Numbers that come back: once its pass is gathered a number is drawn again, with its next term, as another caller.
ghost use Rattle.std.specs.Prelude.{◌≡◌, ◌≢◌, ◌<◌, ◌≤◌};
ghost use Rattle.fm_base.specs.Arenas.{owner_of};
ghost use Rattle.fm_close.specs.Learnt.{CanWalk, StandsAfter};
ghost use Rattle.fm_close.specs.Does.{after_visit};
ghost use Rattle.fm_gate.specs.Crews.{HasNothing};
ghost use Rattle.fm_gate.specs.Needs.{CanVisit, IsInside, IsOutside};
ghost use Rattle.fm_arena.specs.Shares.{CanShare};
ghost use Rattle.fm_gate_tests.specs.Ready.{IsKeptOut};

use crate::tests::compared::same;
use crate::tests::pools::{drawn, is_whole, pool_of, takes_in};
use fm_base::{ArenaId, Caller, Kind, Refusal};
use fm_close::{Shutting, Visit, a_close_lasts, shut, sweep, visit};
use fm_gate::{a_crew_stands, enter, leave, open_arena};
use fm_rule::{Pass, Pool, alive_holds, step_check, step_mark, step_unmark};
use std::alloc::AllocGlobal;
use std::process::Abort;
use std::sync::Wait;

/// A pool of so many passes, with one slot of one word.
fn made_for<R: Abort + AllocGlobal>(rt: &R, passes: u32) -> (Pool, Pass)
    requires some { 0 < passes }
    requires few { passes ≤ 4096 }
    ensures { CanShare result.0 result.1 }
{
    pool_of(rt, passes, 1, 1, 1)
}

/// Opens an arena, and keeps nothing of it.
fn opened<R: Abort + Wait>(rt: &R, pool: &Pool, pass: &mut Pass, kind: Kind) -> ArenaId
    requires outside { IsOutside pool.now pass.old }
    requires nothing { HasNothing pass.old }
    requires by_hand { kind ≢ Kind.Automatic }
    ensures visit { CanVisit pool.now pass.new result }
    ensures nothing { HasNothing pass.new }
    ensures kind { result.kind ≡ kind }
    ensures owner { owner_of result ≡ pass.old.caller }
{
    a_crew_stands();
    open_arena(rt, pool, pass, kind).expect(rt, "a slot")
}

/// Comes into an arena and leaves it. Who isn't its owner, by number and term, is kept out of a confined one.
fn come_and_go(pool: &Pool, pass: &mut Pass, a: ArenaId) -> Result<(), Refusal>
    requires visit { CanVisit pool.now pass.old a }
    requires nothing { HasNothing pass.old }
    ensures outside { IsOutside pool.now pass.new }
    ensures nothing { HasNothing pass.new }
    ensures kept_out { IsKeptOut a pass.old.caller result }
{
    a_crew_stands();
    enter(pool, pass, a)?;
    leave(pool, pass);
    Ok(())
}

#[test]
fn a_confined_arena_is_kept_from_its_owners_number(rt: HostRuntime) {
    let (pool, mut pass) = made_for(&rt, 2);
    let mut owner = drawn(&rt, &pool, &mut pass);
    same(&rt, owner.caller(), Caller { number: 1, term: 0 });
    let a = opened(&rt, &pool, &mut owner, Kind::Confined);
    same(&rt, (a.owner, a.term), (1, 0));
    takes_in(&pool, &mut pass, owner);
    let mut next = drawn(&rt, &pool, &mut pass);
    same(&rt, next.caller(), Caller { number: 1, term: 1 });
    same(
        &rt,
        come_and_go(&pool, &mut next, a),
        Err(Refusal::WrongThread),
    );
    same(&rt, is_whole(&pool, &mut pass), false);
    takes_in(&pool, &mut pass, next);
    same(&rt, is_whole(&pool, &mut pass), true);
}

/// Whether a pass can be drawn. It is dropped, and its number never comes back.
fn draws<R: Wait>(rt: &R, pool: &Pool, pass: &mut Pass) -> bool
    requires { IsOutside pool.now pass.old }
    ensures { IsOutside pool.now pass.new }
{
    a_crew_stands();
    pool.draw(rt, pass).is_ok()
}

#[test]
fn a_number_comes_back_where_its_pass_is_gathered_alone(rt: HostRuntime) {
    let (pool, mut pass) = made_for(&rt, 2);
    let one = drawn(&rt, &pool, &mut pass);
    same(&rt, draws(&rt, &pool, &mut pass), false);
    takes_in(&pool, &mut pass, one);
    same(&rt, draws(&rt, &pool, &mut pass), true);
    same(&rt, draws(&rt, &pool, &mut pass), false);
    same(&rt, is_whole(&pool, &mut pass), false);
}

/// How many passes can be drawn beside the first.
fn drawn_in_all<R: Abort + AllocGlobal + Wait>(rt: &R, passes: u32) -> u32
    requires some { 0 < passes }
    requires few { passes ≤ 4096 }
{
    let (pool, mut pass) = made_for(rt, passes);
    for drawn in 0..passes {
        if !draws(rt, &pool, &mut pass) {
            return drawn;
        }
    }
    passes
}

#[test]
fn every_number_is_drawn_once_before_one_comes_back(rt: HostRuntime) {
    same(&rt, drawn_in_all(&rt, 1), 0);
    same(&rt, drawn_in_all(&rt, 2), 1);
    same(&rt, drawn_in_all(&rt, 63), 62);
    same(&rt, drawn_in_all(&rt, 64), 63);
    same(&rt, drawn_in_all(&rt, 65), 64);
    same(&rt, drawn_in_all(&rt, 4_096), 4_095);
}

/// Comes into an arena that is alive.
fn come_in<R: Abort>(rt: &R, pool: &Pool, pass: &mut Pass, a: ArenaId)
    requires visit { CanVisit pool.now pass.old a }
    requires nothing { HasNothing pass.old }
    ensures inside { IsInside pool.now pass.new a }
    ensures nothing { HasNothing pass.new }
{
    a_crew_stands();
    same(rt, enter(pool, pass, a), Ok(()));
}

/// Leaves the arena.
fn go_out(pool: &Pool, pass: &mut Pass, a: ArenaId)
    requires inside { IsInside pool.now pass.old a }
    requires nothing { HasNothing pass.old }
    ensures outside { IsOutside pool.now pass.new }
    ensures nothing { HasNothing pass.new }
{
    a_crew_stands();
    leave(pool, pass);
}

/// In the midst of a close a pass is gathered, and its number drawn again.
fn renewed<R: Abort + Wait>(
    rt: &R,
    pool: &Pool,
    closer: &mut Pass,
    s: &Shutting,
    other: Pass,
) -> Pass
    requires walk { CanWalk pool.now closer.old s.now }
    requires other { IsOutside pool.now other }
    requires nothing { HasNothing other }
    ensures walk { CanWalk pool.now closer.new s.now }
    ensures visit { CanVisit pool.now result s.now.arena }
{
    a_close_lasts();
    takes_in(pool, closer, other);
    drawn(rt, pool, closer)
}

/// Publishes its mark before the closer looks at it, and is refused only then.
fn meet_late<R: Abort>(
    rt: &R,
    pool: &Pool,
    closer: &mut Pass,
    s: &mut Shutting,
    late: Pass,
) -> Visit
    requires walk { CanWalk pool.now closer.old s.old }
    requires visit { CanVisit pool.now late s.old.arena }
    requires shared { s.old.arena.kind ≢ Kind.Confined }
    ensures outside { IsOutside pool.now closer.new }
    ensures stands { StandsAfter closer.new s.new result }
    ensures close { s.new ≡ after_visit s.old result }
{
    let mut late = late;
    let a = s.arena();
    step_mark(pool, &mut late, a);
    let met = visit(pool, closer, s);
    let word = step_check(pool, &mut late, a);
    same(rt, alive_holds(a, word).is_none(), true);
    step_unmark(pool, &mut late);
    met
}

/// Shuts an arena that the pass of number 1 is inside, and finds it there.
fn found_inside<R: Abort>(rt: &R, pool: &Pool, closer: &mut Pass, a: ArenaId) -> Shutting
    requires { CanVisit pool.now closer.old a }
    ensures walk { CanWalk pool.now closer.new result }
    ensures arena { result.arena ≡ a }
{
    let mut s = shut(pool, closer, a).expect(rt, "alive");
    same(rt, visit(pool, closer, &mut s), Visit::Next);
    same(rt, visit(pool, closer, &mut s), Visit::Inside(1));
    s
}

/// The mark names the arena again, by a pass that was drawn after the arena was shut, and that comes in no more.
#[test]
fn a_number_is_drawn_again_while_a_closer_walks(rt: HostRuntime) {
    let (pool, mut pass) = made_for(&rt, 2);
    let a = open_arena(&rt, &pool, &mut pass, Kind::Shared).expect(&rt, "a slot");
    let mut one = drawn(&rt, &pool, &mut pass);
    come_in(&rt, &pool, &mut one, a);
    let mut s = found_inside(&rt, &pool, &mut pass, a);
    go_out(&pool, &mut one, a);
    let late = renewed(&rt, &pool, &mut pass, &s, one);
    same(&rt, late.caller(), Caller { number: 1, term: 1 });
    same(
        &rt,
        meet_late(&rt, &pool, &mut pass, &mut s, late),
        Visit::Inside(1),
    );
    same(&rt, visit(&pool, &mut pass, &mut s), Visit::Ended);
    sweep(&pool, &mut pass, s);
    same(&rt, enter(&pool, &mut pass, a), Err(Refusal::Closed));
}
