//! Threads that have a pass each. What they count is looked at as the tests run; the proofs are of what each may do.
ghost use Rattle.std.specs.Prelude.{◌≤◌, All};
ghost use Rattle.fm_rule_facts.specs.Views.{given_of};
ghost use Rattle.fm_gate.specs.Crews.{HasNothing};
ghost use Rattle.fm_gate.specs.Needs.{CanVisit};
ghost use Rattle.fm_gate_tests.specs.Ready.{CanWork};

use super::made;
use crate::tests::compared::same;
use crate::tests::pools::{drawn, given, word_of};
use fm_base::{ArenaId, Kind, Refusal};
use fm_close::close;
use fm_gate::{a_crew_stands, add, enter, leave};
use fm_rule::{Pass, Pool};
use std::alloc::AllocGlobal;
use std::process::Abort;
use std::sync::Wait;
use std::thread;
use std::thread::Threads;

/// Adds to the arena's word in a visit of its own, and answers what was there.
fn add_one(pool: &Pool, pass: &mut Pass, a: ArenaId) -> Result<u64, Refusal>
    requires visit { CanVisit pool.now pass.old a }
    requires given { 8 ≤ given_of pass.old a }
    requires nothing { HasNothing pass.old }
    ensures visit { CanVisit pool.now pass.new a }
    ensures given { 8 ≤ given_of pass.new a }
    ensures nothing { HasNothing pass.new }
{
    a_crew_stands();
    enter(pool, pass, a)?;
    let found = add(pool, pass, 0, 1);
    leave(pool, pass);
    Ok(found)
}

/// Adds 1 so often, or until the arena is closed, and answers how often it did.
fn add_often(pool: &Pool, pass: &mut Pass, a: ArenaId, times: u64) -> u64
    requires { CanWork pool.now pass.old a }
    ensures { CanWork pool.now pass.new a }
{
    for done in 0..times {
        if add_one(pool, pass, a).is_err() {
            return done;
        }
    }
    times
}

/// Closes the arena, which nobody comes into after that.
fn close_once<R: Abort + Wait>(rt: &R, pool: &Pool, pass: &mut Pass, a: ArenaId)
    requires { CanWork pool.now pass.old a }
    ensures { CanWork pool.now pass.new a }
{
    a_crew_stands();
    same(rt, close(rt, pool, pass, a), Ok(()));
}

/// Each pass adds, in a thread of its own. Where the arena is to be closed, the first pass closes it before it adds.
fn add_all<R: Abort + Threads + Wait + Sync>(
    rt: &R,
    pool: &Pool,
    crew: &mut [Pass],
    a: ArenaId,
    times: u64,
    closes: bool,
)
    requires { All (λ p. CanWork pool.now p a) crew.old }
    ensures { All (λ p. CanWork pool.now p a) crew.new }
{
    thread::for_each_mut(
        rt,
        crew,
        16,
        &|place: usize, pass: &mut Pass|
            requires { CanWork pool.now pass.now a }
            ensures { CanWork pool.entry.now pass.exit.now a }
        {
            if closes && place == 0 {
                close_once(rt, pool, pass, a);
            }
            let added = add_often(pool, pass, a, times);
            same(rt, closes || added == times, true);
        },
    );
}

/// One pass more that knows the arena.
fn enlist<R: Abort + Wait>(rt: &R, pool: &Pool, pass: &mut Pass, a: ArenaId, crew: &mut Vec<Pass>)
    requires ready { CanVisit pool.now pass.old a × (8 ≤ given_of pass.old a) }
    requires crew { All (λ p. CanWork pool.now p a) crew.old.items }
    ensures ready { CanVisit pool.now pass.new a × (8 ≤ given_of pass.new a) }
    ensures crew { All (λ p. CanWork pool.now p a) crew.new.items }
{
    let one = drawn(rt, pool, pass);
    crew.push(one).expect(rt, "memory");
}

/// Two passes more that know the arena.
fn crew_of_two<R: Abort + AllocGlobal + Wait>(
    rt: &R,
    pool: &Pool,
    pass: &mut Pass,
    a: ArenaId,
) -> Vec<Pass>
    requires { CanVisit pool.now pass.old a × (8 ≤ given_of pass.old a) }
    ensures ready { CanVisit pool.now pass.new a × (8 ≤ given_of pass.new a) }
    ensures crew { All (λ p. CanWork pool.now p a) result.items }
{
    let mut crew = Vec::new(rt.alloc());
    enlist(rt, pool, pass, a, &mut crew);
    enlist(rt, pool, pass, a, &mut crew);
    crew
}

/// The last pass of the crew is gathered.
fn gather_last(pool: &Pool, pass: &mut Pass, a: ArenaId, crew: &mut Vec<Pass>)
    requires ready { CanVisit pool.now pass.old a × (8 ≤ given_of pass.old a) }
    requires crew { All (λ p. CanWork pool.now p a) crew.old.items }
    ensures ready { CanVisit pool.now pass.new a × (8 ≤ given_of pass.new a) }
    ensures crew { All (λ p. CanWork pool.now p a) crew.new.items }
{
    a_crew_stands();
    if let Some(other) = crew.pop() {
        pool.gather(pass, other);
    }
}

/// Whether the pass has every number, and the word that it finds.
fn found_by(pool: &Pool, pass: &mut Pass, a: ArenaId) -> (bool, Result<u64, Refusal>)
    requires visit { CanVisit pool.now pass.old a }
    requires given { 8 ≤ given_of pass.old a }
{
    a_crew_stands();
    let whole = pool.whole(pass);
    (whole, word_of(pool, pass, a, 0))
}

/// What is found once two passes have added so often, or until the first one closed the arena.
fn found_after<R: Abort + AllocGlobal + Threads + Wait + Sync>(
    rt: &R,
    times: u64,
    closes: bool,
) -> (bool, Result<u64, Refusal>) {
    let (pool, mut pass) = made(rt, 1);
    let a = given(rt, &pool, &mut pass, Kind::Shared, 8);
    let mut crew = crew_of_two(rt, &pool, &mut pass, a);
    add_all(rt, &pool, crew.as_mut_slice(), a, times, closes);
    gather_last(&pool, &mut pass, a, &mut crew);
    gather_last(&pool, &mut pass, a, &mut crew);
    found_by(&pool, &mut pass, a)
}

#[test]
fn what_threads_add_adds_up(rt: HostRuntime) {
    same(&rt, found_after(&rt, 1_000, false), (true, Ok(2_000)));
}

#[test]
fn an_arena_is_closed_while_threads_add(rt: HostRuntime) {
    let found = found_after(&rt, 1_000_000, true);
    same(&rt, found, (true, Err(Refusal::Closed)));
}
