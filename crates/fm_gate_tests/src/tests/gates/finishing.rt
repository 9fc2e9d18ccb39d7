ghost use Rattle.std.specs.Prelude.{◌≡◌, ◌≤◌, true};
ghost use Rattle.fm_base.specs.Arenas.{has_arena};
ghost use Rattle.fm_rule_facts.specs.Views.{IsKnown, given_of};
ghost use Rattle.fm_rule.specs.GivenBytes.{state_of};
ghost use Rattle.fm_gate.specs.Needs.{IsInside, IsOutside};
ghost use Rattle.fm_arena.specs.Shares.{CanShare};

use crate::tests::compared::same;
use crate::tests::pools::{given, pool_of};
use fm_base::{ArenaId, Kind};
use fm_gate::{enter, leave, store};
use fm_rule::{Finished, Pass, Pool};
use std::alloc::AllocGlobal;
use std::process::Abort;
use std::sync::Wait;

/// Stores 9 into the first word.
fn store_nine(pool: &Pool, pass: &mut Pass, a: ArenaId)
    requires inside { IsInside pool.now pass.old a }
    requires given { 8 ≤ given_of pass.old a }
    requires whole { pass.old.whole ≡ true }
    requires known { IsKnown pass.old a }
    ensures inside { IsInside pool.now pass.new a }
    ensures whole { pass.new.whole ≡ true }
    ensures known { IsKnown pass.new a }
{
    store(pool, pass, 0, 9);
}

/// Opens an arena of eight bytes, the lowest of which is 9.
fn nine<R: Abort + Wait>(rt: &R, pool: &Pool, pass: &mut Pass) -> ArenaId
    requires ready { CanShare pool.now pass.old }
    requires whole { pass.old.whole ≡ true }
    ensures outside { IsOutside pool.now pass.new }
    ensures whole { pass.new.whole ≡ true }
    ensures known { IsKnown pass.new result }
{
    let a = given(rt, pool, pass, Kind::Shared, 8);
    same(rt, enter(pool, pass, a), Ok(()));
    store_nine(pool, pass, a);
    leave(pool, pass);
    a
}

/// Finishes the pool by a pass that is known to be whole; it knows the arena then.
fn finished<R: Abort + AllocGlobal>(rt: &R, pool: Pool, pass: Pass, a: ArenaId) -> Finished
    requires outside { IsOutside pool pass }
    requires whole { pass.whole ≡ true }
    requires known { IsKnown pass a }
    ensures { has_arena (state_of result) a ≡ true }
{
    pool.finish(rt.alloc(), pass).expect(rt, "words")
}

#[test]
fn a_finished_pool_tells_the_bytes_of_its_arenas(rt: HostRuntime) {
    let (pool, mut pass) = pool_of(&rt, 1, 1, 2, 2);
    let a = nine(&rt, &pool, &mut pass);
    let finished = finished(&rt, pool, pass, a);
    let bytes = finished
        .bytes_of(rt.alloc(), a)
        .expect(&rt, "bytes")
        .expect(&rt, "alive");
    same(&rt, bytes.len(), 8);
    same(&rt, (bytes[0], bytes[7]), (9, 0));
}
