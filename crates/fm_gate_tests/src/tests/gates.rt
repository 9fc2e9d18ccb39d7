ghost use Rattle.std.specs.Prelude.{◌≡◌, ◌<◌, ◌≤◌, ◌*◌, bit_and};
ghost use Rattle.fm_rule_facts.specs.Views.{given_of, span};
ghost use Rattle.fm_rule_calls.specs.Kept.{Lasts};
ghost use Rattle.fm_gate.specs.Needs.{CanVisit, IsOutside};
ghost use Rattle.fm_arena.specs.Shares.{CanShare};
ghost use Rattle.fm_gate_tests.specs.Ready.{CanAct};

mod crews;
mod finishing;
mod holds;
mod kinds;

use crate::tests::compared::same;
use crate::tests::pools::{given, is_full, new_arena, pool_of, word_of};
use fm_base::{ArenaId, Kind, Refusal};
use fm_gate::{add, allocate, enter, hold, is_alive, leave, load, patch, store, swap_if, unhold};
use fm_rule::{Pass, Pool};
use std::alloc::AllocGlobal;
use std::process::Abort;
use std::sync::Wait;

/// A pool of three passes, whose slots have eight words each.
fn made<R: Abort + AllocGlobal>(rt: &R, slots: u32) -> (Pool, Pass)
    requires few { slots < 65 }
    requires some { 0 < slots }
    ensures ready { CanShare result.0 result.1 }
    ensures wide { span result.0.shape ≡ 8 }
{
    pool_of(rt, 3, slots, 8, 1)
}

/// Reads a word of an arena that has given 64 bytes, and can still act in it. So do the next four.
fn read(pool: &Pool, pass: &mut Pass, a: ArenaId, word: u64) -> u64
    requires low { word < 8 }
    requires can { CanAct pool.now pass.old a }
    ensures { CanAct pool.now pass.new a }
{
    load(pool, pass, word)
}

fn write(pool: &Pool, pass: &mut Pass, a: ArenaId, word: u64, v: u64)
    requires low { word < 8 }
    requires can { CanAct pool.now pass.old a }
    ensures { CanAct pool.now pass.new a }
{
    store(pool, pass, word, v);
}

fn swap(pool: &Pool, pass: &mut Pass, a: ArenaId, word: u64, old: u64, new: u64) -> u64
    requires low { word < 8 }
    requires can { CanAct pool.now pass.old a }
    ensures { CanAct pool.now pass.new a }
{
    swap_if(pool, pass, word, old, new)
}

fn sum(pool: &Pool, pass: &mut Pass, a: ArenaId, word: u64, n: u64) -> u64
    requires low { word < 8 }
    requires can { CanAct pool.now pass.old a }
    ensures { CanAct pool.now pass.new a }
{
    add(pool, pass, word, n)
}

/// A pool of one slot, and its pass inside an arena of this kind that has given 64 bytes.
fn entered<R: Abort + AllocGlobal + Wait>(rt: &R, kind: Kind) -> (Pool, Pass, ArenaId)
    ensures { CanAct result.0 result.1 result.2 }
{
    let (pool, mut pass) = made(rt, 1);
    let a = given(rt, &pool, &mut pass, kind, 64);
    same(rt, enter(&pool, &mut pass, a), Ok(()));
    (pool, pass, a)
}

#[test]
fn a_pass_enters_acts_and_leaves(rt: HostRuntime) {
    let (pool, mut pass, a) = entered(&rt, Kind::Shared);
    write(&pool, &mut pass, a, 0, 9);
    write(&pool, &mut pass, a, 7, u64::MAX);
    same(&rt, read(&pool, &mut pass, a, 0), 9);
    same(&rt, read(&pool, &mut pass, a, 1), 0);
    same(&rt, read(&pool, &mut pass, a, 7), u64::MAX);
    leave(&pool, &mut pass);
    same(&rt, is_alive(&pool, &mut pass, a), Ok(true));
    same(&rt, is_full(&rt, &pool, &mut pass), true);
}

#[test]
fn words_are_changed_by_what_is_found(rt: HostRuntime) {
    let (pool, mut pass, a) = entered(&rt, Kind::Confined);
    write(&pool, &mut pass, a, 1, 7);
    same(&rt, swap(&pool, &mut pass, a, 1, 6, 5), 7);
    same(&rt, swap(&pool, &mut pass, a, 1, 7, u64::MAX), 7);
    same(&rt, sum(&pool, &mut pass, a, 1, 3), u64::MAX);
    same(&rt, read(&pool, &mut pass, a, 1), 2);
    leave(&pool, &mut pass);
}

/// Patches a word so.
fn put_bits<R: Wait>(
    rt: &R,
    pool: &Pool,
    pass: &mut Pass,
    a: ArenaId,
    word: u64,
    mask: u64,
    bits: u64,
) -> u64
    requires under { bit_and bits mask ≡ bits }
    requires low { word < 8 }
    requires can { CanAct pool.now pass.old a }
    ensures { CanAct pool.now pass.new a }
{
    patch(rt, pool, pass, word, mask, bits)
}

#[test]
fn bits_are_put_beside_others(rt: HostRuntime) {
    let (pool, mut pass, a) = entered(&rt, Kind::Shared);
    write(&pool, &mut pass, a, 7, 2);
    same(
        &rt,
        put_bits(&rt, &pool, &mut pass, a, 7, 0xff00, 0x4200),
        2,
    );
    same(&rt, read(&pool, &mut pass, a, 7), 0x4202);
    leave(&pool, &mut pass);
}

#[test]
fn bytes_are_given_up_to_the_limit(rt: HostRuntime) {
    let (pool, mut pass) = made(&rt, 1);
    let a = new_arena(&rt, &pool, &mut pass, Kind::Shared);
    let rows = [
        (60, 4, Ok(0)),
        (8, 8, Err(Refusal::NoRoom(60))),
        (3, 4, Ok(60)),
        (4, 3, Err(Refusal::BadAlignment)),
        (0, 1 << 40, Err(Refusal::NoRoom(63))),
        (u64::MAX, 1, Err(Refusal::NoRoom(63))),
        (0, 8, Ok(64)),
    ];
    for (size, align, answer) in rows {
        same(&rt, allocate(&rt, &pool, &mut pass, a, size, align), answer);
    }
}

#[test]
fn a_hold_is_taken_again_once_it_is_spent(rt: HostRuntime) {
    let (pool, mut pass) = made(&rt, 1);
    let a = new_arena(&rt, &pool, &mut pass, Kind::Shared);
    let once = hold(&rt, &pool, &mut pass, a).expect(&rt, "a hold");
    same(&rt, once.arena(), a);
    unhold(&pool, &mut pass, once);
    let again = hold(&rt, &pool, &mut pass, a).expect(&rt, "a hold");
    unhold(&pool, &mut pass, again);
}

/// Stores a word in a visit of its own.
fn put(pool: &Pool, pass: &mut Pass, arena: ArenaId, word: u64, v: u64) -> Result<(), Refusal>
    requires ready { CanVisit pool.now pass.old arena }
    requires within { 8 * word < given_of pass.old arena }
    ensures outside { IsOutside pool.now pass.new }
    ensures lasts { Lasts pass.old pass.new }
{
    enter(pool, pass, arena)?;
    store(pool, pass, word, v);
    leave(pool, pass);
    Ok(())
}

/// What is found in the first and the last word of an arena.
fn are_words<R: Abort>(rt: &R, pool: &Pool, pass: &mut Pass, a: ArenaId, first: u64, last: u64)
    requires ready { CanVisit pool.now pass.old a }
    requires given { 64 ≤ given_of pass.old a }
    ensures outside { IsOutside pool.now pass.new }
    ensures lasts { Lasts pass.old pass.new }
{
    same(rt, word_of(pool, pass, a, 0), Ok(first));
    same(rt, word_of(pool, pass, a, 7), Ok(last));
}

/// Stores into the last word of one arena and the first of the other.
fn stored<R: Abort>(rt: &R, pool: &Pool, pass: &mut Pass, a: ArenaId, b: ArenaId)
    requires first { CanVisit pool.now pass.old a }
    requires second { CanVisit pool.now pass.old b }
    requires first_given { 64 ≤ given_of pass.old a }
    requires second_given { 64 ≤ given_of pass.old b }
    ensures outside { IsOutside pool.now pass.new }
    ensures lasts { Lasts pass.old pass.new }
{
    same(rt, put(pool, pass, a, 7, 1), Ok(()));
    same(rt, put(pool, pass, b, 0, 2), Ok(()));
}

#[test]
fn arenas_of_two_slots_have_words_of_their_own(rt: HostRuntime) {
    let (pool, mut pass) = made(&rt, 2);
    let a = given(&rt, &pool, &mut pass, Kind::Shared, 64);
    let b = given(&rt, &pool, &mut pass, Kind::Confined, 64);
    same(&rt, a == b, false);
    stored(&rt, &pool, &mut pass, a, b);
    are_words(&rt, &pool, &mut pass, a, 0, 1);
    are_words(&rt, &pool, &mut pass, b, 2, 0);
    same(&rt, is_full(&rt, &pool, &mut pass), true);
}

#[test]
fn each_pass_opens_until_no_slot_is_left(rt: HostRuntime) {
    let (pool, mut pass) = made(&rt, 2);
    let mut other = pool.draw(&rt, &mut pass).expect(&rt, "a pass");
    let a = new_arena(&rt, &pool, &mut other, Kind::Confined);
    let b = new_arena(&rt, &pool, &mut pass, Kind::Confined);
    same(&rt, (a.slot, a.generation, a.owner), (0, 0, 1));
    same(&rt, (b.slot, b.generation, b.owner), (1, 0, 0));
    same(&rt, is_full(&rt, &pool, &mut other), true);
}
