ghost use Rattle.std.specs.Prelude.{◌<◌};
ghost use Rattle.fm_rule_facts.specs.Holds.{how_many};
ghost use Rattle.fm_gate.specs.Needs.{CanAllocate, CanVisit, IsOutside};
ghost use Rattle.fm_close.specs.Learnt.{CanGiveBack};

use super::made;
use crate::tests::compared::same;
use crate::tests::pools::{drawn, new_arena};
use fm_base::{ArenaId, Kind, Refusal};
use fm_close::{GaveBack, close, give_back, other_handles_last};
use fm_gate::{a_handle_lasts, again, allocate, enter, is_alive, open_arena};
use fm_rule::{Pass, Pool};
use std::alloc::AllocGlobal;
use std::process::Abort;
use std::sync::Wait;

/// Closes an arena of this kind, and looks then whether it is alive.
fn closed<R: Abort + AllocGlobal + Wait>(
    rt: &R,
    kind: Kind,
) -> (Result<(), Refusal>, Result<bool, Refusal>) {
    let (pool, mut pass) = made(rt, 1);
    let a = new_arena(rt, &pool, &mut pass, kind);
    let answer = close(rt, &pool, &mut pass, a);
    (answer, is_alive(&pool, &mut pass, a))
}

#[test]
fn two_kinds_are_closed_by_hand(rt: HostRuntime) {
    let rows = [
        (Kind::Global, Err(Refusal::CannotClose(Kind::Global)), true),
        (
            Kind::Automatic,
            Err(Refusal::CannotClose(Kind::Automatic)),
            true,
        ),
        (Kind::Confined, Ok(()), false),
        (Kind::Shared, Ok(()), false),
    ];
    for (kind, answer, alive) in rows {
        same(&rt, closed(&rt, kind), (answer, Ok(alive)));
    }
}

/// An automatic arena of which the pass has two handles.
fn with_two_handles<R: Abort + Wait>(rt: &R, pool: &Pool, pass: &mut Pass) -> ArenaId
    requires { IsOutside pool.now pass.old }
    ensures can { CanGiveBack pool.now pass.new result }
    ensures two { 1 < how_many result pass.new.handles }
{
    let a = open_arena(rt, pool, pass, Kind::Automatic).expect(rt, "a slot");
    a_handle_lasts();
    again(rt, pool, pass, a).expect(rt, "room for a handle");
    a
}

/// Gives back one of two handles.
fn give_first<R: Wait>(rt: &R, pool: &Pool, pass: &mut Pass, a: ArenaId) -> GaveBack
    requires can { CanGiveBack pool.now pass.old a }
    requires two { 1 < how_many a pass.old.handles }
    ensures { CanGiveBack pool.now pass.new a }
{
    other_handles_last();
    give_back(rt, pool, pass, a)
}

/// Comes into the arena and leaves it.
fn look(pool: &Pool, pass: &mut Pass, a: ArenaId) -> Result<bool, Refusal>
    requires { CanGiveBack pool.now pass.old a }
    ensures { CanGiveBack pool.now pass.new a }
{
    a_handle_lasts();
    is_alive(pool, pass, a)
}

/// Gives back the last handle.
fn give_last<R: Wait>(rt: &R, pool: &Pool, pass: &mut Pass, a: ArenaId) -> GaveBack
    requires { CanGiveBack pool.now pass.old a }
    ensures { CanVisit pool.now pass.new a }
{
    give_back(rt, pool, pass, a)
}

#[test]
fn an_automatic_arena_ends_with_its_last_handle(rt: HostRuntime) {
    let (pool, mut pass) = made(&rt, 1);
    let a = with_two_handles(&rt, &pool, &mut pass);
    same(&rt, give_first(&rt, &pool, &mut pass, a), GaveBack::Kept);
    same(&rt, look(&pool, &mut pass, a), Ok(true));
    same(&rt, give_last(&rt, &pool, &mut pass, a), GaveBack::Ended);
    same(&rt, enter(&pool, &mut pass, a), Err(Refusal::Closed));
}

/// Each use of the arena by the pass is refused by its name.
fn is_refused<R: Wait>(rt: &R, pool: &Pool, pass: &mut Pass, a: ArenaId) -> bool
    requires { CanAllocate pool.now pass.old a }
    ensures { CanAllocate pool.now pass.new a }
{
    let alive = is_alive(pool, pass, a);
    let given = allocate(rt, pool, pass, a, 8, 8);
    let closed = close(rt, pool, pass, a);
    alive == Err(Refusal::WrongThread)
        && given == Err(Refusal::WrongThread)
        && closed == Err(Refusal::WrongThread)
}

#[test]
fn a_confined_arena_is_its_owners_alone(rt: HostRuntime) {
    let (pool, mut pass) = made(&rt, 1);
    let a = new_arena(&rt, &pool, &mut pass, Kind::Confined);
    let mut other = drawn(&rt, &pool, &mut pass);
    same(&rt, is_refused(&rt, &pool, &mut other, a), true);
    same(&rt, close(&rt, &pool, &mut pass, a), Ok(()));
    same(&rt, is_refused(&rt, &pool, &mut other, a), true);
    same(&rt, enter(&pool, &mut other, a), Err(Refusal::WrongThread));
}
