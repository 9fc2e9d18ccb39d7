ghost use Rattle.std.specs.Prelude.{IfOk};
ghost use Rattle.fm_rule_facts.specs.Views.{IsKnown};
ghost use Rattle.fm_rule_calls.specs.Kept.{Lasts};
ghost use Rattle.fm_gate.specs.Needs.{CanVisit, IsOutside};

use super::{made, made_for, put};
use crate::tests::compared::same;
use crate::tests::pools::{drawn, given};
use fm_base::{ArenaId, Kind, Refusal};
use fm_close::close;
use fm_gate::open_arena;
use fm_rule::{Pass, Pool};
use std::sync::Wait;
use std::thread::{Threads, join_mut};

/// Tries to open an arena.
fn open<R: Wait>(rt: &R, pool: &Pool, pass: &mut Pass) -> Result<ArenaId, Refusal>
    requires { IsOutside pool.now pass.old }
    ensures outside { IsOutside pool.now pass.new }
    ensures known { IfOk result (λ a. IsKnown pass.new a) }
    ensures lasts { Lasts pass.old pass.new }
{
    open_arena(rt, pool, pass, Kind::Shared)
}

#[test]
fn a_slot_has_all_its_generations_and_no_more(rt: HostRuntime) {
    let (pool, mut pass) = made_for(&rt, 1, 2);
    let a = open(&rt, &pool, &mut pass).expect(&rt, "a slot");
    same(&rt, (a.slot, a.generation), (0, 0));
    same(&rt, close(&rt, &pool, &mut pass, a), Ok(()));
    let b = open(&rt, &pool, &mut pass).expect(&rt, "a slot");
    same(&rt, (b.slot, b.generation), (0, 1));
    same(&rt, close(&rt, &pool, &mut pass, b), Ok(()));
    same(&rt, open(&rt, &pool, &mut pass), Err(Refusal::NoSlot));
}

#[test]
fn a_slot_is_lent_again_once_its_arena_is_closed(rt: HostRuntime) {
    let (pool, mut pass) = made_for(&rt, 2, 3);
    let a = open(&rt, &pool, &mut pass).expect(&rt, "a slot");
    let _ = open(&rt, &pool, &mut pass).expect(&rt, "a slot");
    same(&rt, open(&rt, &pool, &mut pass), Err(Refusal::NoSlot));
    same(&rt, close(&rt, &pool, &mut pass, a), Ok(()));
    let b = open(&rt, &pool, &mut pass).expect(&rt, "a slot");
    same(&rt, (b.slot, b.generation), (a.slot, 1));
}

/// Opens arenas until no slot is left, but no more than so many, and answers how many it opened.
fn open_often<R: Wait>(rt: &R, pool: &Pool, pass: &mut Pass, times: u64) -> u64
    requires { IsOutside pool.now pass.old }
    ensures { IsOutside pool.now pass.new }
{
    for opened in 0..times {
        if open(rt, pool, pass).is_err() {
            return opened;
        }
    }
    times
}

#[test]
fn a_pool_has_as_many_slots_as_a_word_has_bits(rt: HostRuntime) {
    let (pool, mut pass) = made(&rt, 64);
    same(&rt, open_often(&rt, &pool, &mut pass, 64), 64);
    same(&rt, open(&rt, &pool, &mut pass), Err(Refusal::NoSlot));
}

/// One pass closes an arena while the other tries to open one.
fn close_and_open<R: Threads + Wait + Sync>(
    rt: &R,
    pool: &Pool,
    pass: &mut Pass,
    other: &mut Pass,
    a: ArenaId,
) -> (Result<(), Refusal>, Result<ArenaId, Refusal>)
    requires pass { CanVisit pool.now pass.old a }
    requires other { IsOutside pool.now other.old }
{
    join_mut(
        rt,
        &mut || close(rt, pool, pass, a),
        &mut || open(rt, pool, other),
    )
}

#[test]
fn one_opens_while_another_closes(rt: HostRuntime) {
    let (pool, mut pass) = made_for(&rt, 1, 2);
    let a = open(&rt, &pool, &mut pass).expect(&rt, "a slot");
    let mut other = drawn(&rt, &pool, &mut pass);
    let (closed, opened) = close_and_open(&rt, &pool, &mut pass, &mut other, a);
    same(&rt, closed, Ok(()));
    // The other found the slot as the close had left it, or as it was before.
    match opened {
        Ok(b) => same(&rt, (b.slot, b.generation), (a.slot, 1)),
        Err(refusal) => same(&rt, refusal, Refusal::NoSlot),
    }
}

#[test]
fn words_are_zeros_for_the_next_arena(rt: HostRuntime) {
    let (pool, mut pass) = made_for(&rt, 1, 2);
    let a = given(&rt, &pool, &mut pass, Kind::Shared, 8);
    same(&rt, put(&pool, &mut pass, a, 9), Ok(0));
    same(&rt, put(&pool, &mut pass, a, 8), Ok(9));
    same(&rt, close(&rt, &pool, &mut pass, a), Ok(()));
    let b = given(&rt, &pool, &mut pass, Kind::Shared, 8);
    same(&rt, put(&pool, &mut pass, b, 7), Ok(0));
    same(&rt, put(&pool, &mut pass, a, 7), Err(Refusal::Closed));
}
