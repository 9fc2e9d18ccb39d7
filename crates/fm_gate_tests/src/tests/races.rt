//! Two threads that change one word at once. A word never comes back to what it was while they do, so who tries a stale
//! word again never ends. Handles of an automatic arena are one pass's alone, so nobody races for their word.
ghost use Rattle.std.specs.Prelude.{◌≤◌};
ghost use Rattle.fm_rule_facts.specs.Views.{IsKnown, given_of};
ghost use Rattle.fm_gate.specs.Needs.{CanAllocate, CanVisit, IsInside};

mod draws;

use crate::tests::compared::same;
use crate::tests::pools::{drawn, given, new_arena, paged, pool_of, word_of};
use fm_base::{ArenaId, Kind, Refusal};
use fm_close::close;
use fm_gate::{allocate, enter, leave, patch};
use fm_rule::{Pass, Pool};
use std::alloc::AllocGlobal;
use std::process::Abort;
use std::sync::Wait;
use std::sync::atomic::{AtomicBool, Ordering};
use std::thread::{Threads, join_mut};

/// How often each thread changes the word.
const TIMES: u64 = 30_000;

/// How often a thread looks whether the other came, before it goes on without it.
const TURNS: u32 = 1_000_000_000;

/// Waits until the other thread came.
fn meet(mine: &AtomicBool, other: &AtomicBool) {
    mine.store(true, Ordering::SeqCst);
    for _ in 0..TURNS {
        if other.load(Ordering::SeqCst) {
            return;
        }
    }
}

/// Gives so many bytes so often, or until it is refused, and answers how often it did.
fn give_often<R: Wait>(
    rt: &R,
    pool: &Pool,
    pass: &mut Pass,
    a: ArenaId,
    bytes: u64,
    times: u64,
) -> u64
    requires { CanAllocate pool.now pass.old a }
    ensures { CanAllocate pool.now pass.new a }
{
    for given in 0..times {
        if allocate(rt, pool, pass, a, bytes, bytes).is_err() {
            return given;
        }
    }
    times
}

/// Gives so many bytes so often once the other came, and answers how often it did.
fn give_once_met<R: Wait>(
    rt: &R,
    pool: &Pool,
    pass: &mut Pass,
    a: ArenaId,
    many: (u64, u64),
    mine: &AtomicBool,
    other: &AtomicBool,
) -> u64
    requires { CanAllocate pool.now pass.old a }
    ensures { CanAllocate pool.now pass.new a }
{
    meet(mine, other);
    give_often(rt, pool, pass, a, many.0, many.1)
}

/// How often each of two passes gives so many bytes of one arena, when both do so at once.
fn give_at_once<R: Threads + Wait + Sync>(
    rt: &R,
    pool: &Pool,
    pass: &mut Pass,
    other: &mut Pass,
    a: ArenaId,
    many: (u64, u64),
) -> (u64, u64)
    requires pass { CanAllocate pool.now pass.old a }
    requires other { CanAllocate pool.now other.old a }
    ensures pass { CanAllocate pool.now pass.new a }
    ensures other { CanAllocate pool.now other.new a }
{
    let first = AtomicBool::new(false);
    let second = AtomicBool::new(false);
    join_mut(
        rt,
        &mut || give_once_met(rt, pool, pass, a, many, &first, &second),
        &mut || give_once_met(rt, pool, other, a, many, &second, &first),
    )
}

/// The arena needs one page, and the pool has one more: both want a page first, and who comes second may be refused the
/// pool's last one while the other maps it.
#[test]
fn two_passes_allocate_at_once(rt: HostRuntime) {
    let (pool, mut pass) = pool_of(&rt, 2, 2, 8_192, 1);
    let a = new_arena(&rt, &pool, &mut pass, Kind::Shared);
    let mut other = drawn(&rt, &pool, &mut pass);
    let both = give_at_once(&rt, &pool, &mut pass, &mut other, a, (1, TIMES));
    same(&rt, both, (TIMES, TIMES));
    same(&rt, allocate(&rt, &pool, &mut pass, a, 0, 1), Ok(2 * TIMES));
}

/// How many words each gives in a new pool. Another arena has the four pages that are left then, and this is what it is
/// answered for one more.
fn given_at_once<R: Abort + AllocGlobal + Threads + Wait + Sync>(
    rt: &R,
) -> (u64, u64, Result<u64, Refusal>) {
    let (pool, mut pass) = paged(rt, 2, 64, 1, 1);
    let a = new_arena(rt, &pool, &mut pass, Kind::Shared);
    let mut other = drawn(rt, &pool, &mut pass);
    let (ours, theirs) = give_at_once(rt, &pool, &mut pass, &mut other, a, (8, 30));
    let b = given(rt, &pool, &mut other, Kind::Shared, 32);
    (ours, theirs, allocate(rt, &pool, &mut other, b, 1, 1))
}

/// Both want a page for the same part again and again. Who comes second gives its page back.
#[test]
fn two_passes_want_pages_at_once(rt: HostRuntime) {
    for _ in 0..200 {
        same(&rt, given_at_once(&rt), (30, 30, Err(Refusal::PoolFull)));
    }
}

/// What a close is answered while another pass gives words of the arena.
fn close_amid_giving<R: Threads + Wait + Sync>(
    rt: &R,
    pool: &Pool,
    pass: &mut Pass,
    other: &mut Pass,
    a: ArenaId,
) -> Result<(), Refusal>
    requires pass { CanAllocate pool.now pass.old a }
    requires other { CanAllocate pool.now other.old a }
    ensures { CanAllocate pool.now other.new a }
{
    let (closed, _) = join_mut(
        rt,
        &mut || close(rt, pool, pass, a),
        &mut || give_often(rt, pool, other, a, 8, 100),
    );
    closed
}

/// How many words each gives in a new pool. Another arena has all pages then, whose bits stand in two words.
fn closed_amid_giving<R: Abort + AllocGlobal + Threads + Wait + Sync>(
    rt: &R,
) -> Result<(), Refusal> {
    let (pool, mut pass) = paged(rt, 2, 100, 1, 1);
    let a = new_arena(rt, &pool, &mut pass, Kind::Shared);
    let mut other = drawn(rt, &pool, &mut pass);
    let closed = close_amid_giving(rt, &pool, &mut pass, &mut other, a);
    given(rt, &pool, &mut other, Kind::Shared, 800);
    closed
}

#[test]
fn an_arena_is_closed_while_another_pass_allocates(rt: HostRuntime) {
    for _ in 0..200 {
        same(&rt, closed_amid_giving(&rt), Ok(()));
    }
}

/// Puts so many numbers into the word, the first of them `first`, none twice.
fn put_numbers<R: Wait>(rt: &R, pool: &Pool, pass: &mut Pass, a: ArenaId, first: u64)
    requires inside { IsInside pool.now pass.old a }
    requires given { 8 ≤ given_of pass.old a }
    requires known { IsKnown pass.old a }
    requires low { first ≤ TIMES }
    ensures inside { IsInside pool.now pass.new a }
    ensures given { 8 ≤ given_of pass.new a }
    ensures known { IsKnown pass.new a }
{
    for number in 0..TIMES {
        patch(rt, pool, pass, 0, u64::MAX, first + number);
    }
}

/// The same in a visit of its own.
fn put_often<R: Wait>(
    rt: &R,
    pool: &Pool,
    pass: &mut Pass,
    a: ArenaId,
    first: u64,
) -> Result<(), Refusal>
    requires visit { CanVisit pool.now pass.old a }
    requires given { 8 ≤ given_of pass.old a }
    requires low { first ≤ TIMES }
    ensures visit { CanVisit pool.now pass.new a }
    ensures given { 8 ≤ given_of pass.new a }
{
    enter(pool, pass, a)?;
    put_numbers(rt, pool, pass, a, first);
    leave(pool, pass);
    Ok(())
}

/// Two passes put their numbers into the word at once.
fn put_at_once<R: Threads + Wait + Sync>(
    rt: &R,
    pool: &Pool,
    pass: &mut Pass,
    other: &mut Pass,
    a: ArenaId,
) -> (Result<(), Refusal>, Result<(), Refusal>)
    requires pass { CanVisit pool.now pass.old a }
    requires given { 8 ≤ given_of pass.old a }
    requires other { CanVisit pool.now other.old a }
    requires other_given { 8 ≤ given_of other.old a }
    ensures visit { CanVisit pool.now pass.new a }
    ensures given { 8 ≤ given_of pass.new a }
{
    join_mut(
        rt,
        &mut || put_often(rt, pool, pass, a, 0),
        &mut || put_often(rt, pool, other, a, TIMES),
    )
}

#[test]
fn two_passes_patch_a_word_at_once(rt: HostRuntime) {
    let (pool, mut pass) = pool_of(&rt, 2, 1, 1, 1);
    let a = given(&rt, &pool, &mut pass, Kind::Shared, 8);
    let mut other = drawn(&rt, &pool, &mut pass);
    let both = put_at_once(&rt, &pool, &mut pass, &mut other, a);
    same(&rt, both, (Ok(()), Ok(())));
    let last = word_of(&pool, &mut pass, a, 0);
    same(
        &rt,
        last == Ok(TIMES - 1) || last == Ok(2 * TIMES - 1),
        true,
    );
}
