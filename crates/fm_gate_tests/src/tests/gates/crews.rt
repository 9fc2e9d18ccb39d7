ghost use Rattle.std.specs.Prelude.{◌≡◌, ◌<◌, ◌≤◌};
ghost use Rattle.fm_rule_facts.specs.Views.{span};
ghost use Rattle.fm_rule_calls.specs.Kept.{Lasts};
ghost use Rattle.fm_gate.specs.Needs.{CanVisit, IsOutside};
ghost use Rattle.fm_arena.specs.Shares.{CanShare};

use super::put;
use crate::tests::compared::same;
use crate::tests::pools::{drawn, given, is_whole, pool_of, takes_in, word_of};
use fm_arena::Shared;
use fm_base::{ArenaId, Kind, Refusal};
use fm_gate::a_crew_stands;
use fm_rule::{Pass, Pool};
use std::alloc::AllocGlobal;
use std::process::Abort;
use std::sync::Wait;

/// A pool of so many passes, with one slot of eight words.
fn made_for<R: Abort + AllocGlobal>(rt: &R, passes: u32) -> (Pool, Pass)
    requires some { 0 < passes }
    requires few { passes ≤ 3 }
    ensures ready { CanShare result.0 result.1 }
    ensures wide { span result.0.shape ≡ 8 }
{
    pool_of(rt, passes, 1, 8, 1)
}

/// Why no pass can be drawn.
fn draws_none<R: Wait>(rt: &R, pool: &Pool, giver: &mut Pass) -> Option<Refusal>
    requires outside { IsOutside pool.now giver.old }
    ensures outside { IsOutside pool.now giver.new }
{
    a_crew_stands();
    pool.draw(rt, giver).err()
}

#[test]
fn the_only_pass_draws_none(rt: HostRuntime) {
    let (pool, mut pass) = made_for(&rt, 1);
    same(
        &rt,
        draws_none(&rt, &pool, &mut pass),
        Some(Refusal::NoPass),
    );
    same(&rt, is_whole(&pool, &mut pass), true);
}

#[test]
fn passes_that_others_drew_are_gathered_with_them(rt: HostRuntime) {
    let (pool, mut pass) = made_for(&rt, 3);
    let mut one = drawn(&rt, &pool, &mut pass);
    let two = drawn(&rt, &pool, &mut one);
    same(
        &rt,
        draws_none(&rt, &pool, &mut pass),
        Some(Refusal::NoPass),
    );
    takes_in(&pool, &mut one, two);
    same(&rt, is_whole(&pool, &mut pass), false);
    takes_in(&pool, &mut pass, one);
    same(&rt, is_whole(&pool, &mut pass), true);
}

#[test]
fn a_memory_draws_another_and_gathers_it(rt: HostRuntime) {
    let (pool, pass) = made_for(&rt, 2);
    let mut memory = Shared::new(&pool, pass);
    let other = memory.draw(&rt).expect(&rt, "a pass");
    same(&rt, memory.draw(&rt).err(), Some(Refusal::NoPass));
    same(&rt, memory.whole(), false);
    memory.gather(other);
    same(&rt, memory.whole(), true);
}

/// The pass learns what the other has seen.
fn tell(pool: &Pool, from: &mut Pass, to: &mut Pass, a: ArenaId)
    requires from { CanVisit pool.now from.old a }
    requires to { IsOutside pool.now to.old }
    ensures from { from.new ≡ from.old }
    ensures to { CanVisit pool.now to.new a }
    ensures lasts { Lasts from.old to.new }
{
    a_crew_stands();
    let note = pool.note(from);
    pool.meet(to, note);
}

#[test]
fn words_are_found_by_who_was_told_of_the_arena(rt: HostRuntime) {
    let (pool, mut pass) = made_for(&rt, 3);
    let mut other = drawn(&rt, &pool, &mut pass);
    let a = given(&rt, &pool, &mut pass, Kind::Shared, 64);
    same(&rt, put(&pool, &mut pass, a, 7, 5), Ok(()));
    tell(&pool, &mut pass, &mut other, a);
    same(&rt, word_of(&pool, &mut other, a, 7), Ok(5));
    let mut late = drawn(&rt, &pool, &mut pass);
    same(&rt, word_of(&pool, &mut late, a, 7), Ok(5));
}
