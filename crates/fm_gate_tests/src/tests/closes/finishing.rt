ghost use Rattle.std.specs.Prelude.{◌≡◌, true, IfSome};
ghost use Rattle.fm_base.specs.Arenas.{has_arena};
ghost use Rattle.fm_rule_facts.specs.Views.{IsKnown};
ghost use Rattle.fm_rule.specs.GivenBytes.{state_of};
ghost use Rattle.fm_gate.specs.Needs.{IsOutside};
ghost use Rattle.fm_arena.specs.Shares.{CanShare};

use super::{made, put};
use crate::tests::compared::same;
use crate::tests::pools::{drawn, given, is_whole, takes_in};
use fm_base::{ArenaId, Kind};
use fm_close::close;
use fm_gate::a_crew_stands;
use fm_rule::{Finished, Pass, Pool};
use std::alloc::AllocGlobal;
use std::process::Abort;
use std::sync::Wait;

/// Finishes the pool by a pass that has every number; none where it hasn't.
fn finished<R: Abort + AllocGlobal>(rt: &R, pool: Pool, pass: Pass) -> Option<Finished>
    requires { IsOutside pool pass }
    ensures { IfSome result (λ f. (a : _) → IsKnown pass a → has_arena (state_of f) a ≡ true) }
{
    a_crew_stands();
    let mut pass = pass;
    if !pool.whole(&mut pass) {
        return None;
    }
    Some(pool.finish(rt.alloc(), pass).expect(rt, "words"))
}

/// The length of an arena's bytes, and the first of them; none where it isn't alive.
fn first_byte<R: Abort + AllocGlobal>(
    rt: &R,
    finished: &Finished,
    a: ArenaId,
) -> Option<(usize, u8)>
    requires { has_arena (state_of finished.now) a ≡ true }
{
    let bytes = finished.bytes_of(rt.alloc(), a).expect(rt, "bytes")?;
    let first = bytes.first()?;
    Some((bytes.len(), *first))
}

/// Opens two arenas of eight bytes, and closes the second.
fn one_open_one_closed<R: Abort + Wait>(rt: &R, pool: &Pool, pass: &mut Pass) -> (ArenaId, ArenaId)
    requires { CanShare pool.now pass.old }
    ensures outside { IsOutside pool.now pass.new }
    ensures kept { IsKnown pass.new result.0 }
    ensures closed { IsKnown pass.new result.1 }
{
    let kept = given(rt, pool, pass, Kind::Shared, 8);
    same(rt, put(pool, pass, kept, 9), Ok(0));
    let closed = given(rt, pool, pass, Kind::Shared, 8);
    same(rt, put(pool, pass, closed, 7), Ok(0));
    same(rt, close(rt, pool, pass, closed), Ok(()));
    (kept, closed)
}

#[test]
fn a_finished_pool_tells_the_bytes_of_arenas_that_are_alive(rt: HostRuntime) {
    let (pool, mut pass) = made(&rt, 2);
    let (kept, closed) = one_open_one_closed(&rt, &pool, &mut pass);
    let other = drawn(&rt, &pool, &mut pass);
    same(&rt, is_whole(&pool, &mut pass), false);
    takes_in(&pool, &mut pass, other);
    let finished = finished(&rt, pool, pass).expect(&rt, "every number");
    same(&rt, first_byte(&rt, &finished, kept), Some((8, 9)));
    same(&rt, first_byte(&rt, &finished, closed), None);
}
