//! Passes that are drawn and gathered, and arenas that are opened, by two threads at once.
ghost use Rattle.fm_gate.specs.Crews.{HasNothing};
ghost use Rattle.fm_gate.specs.Needs.{IsOutside};

use super::meet;
use crate::tests::compared::same;
use crate::tests::pools::{drawn, is_whole, pool_of, takes_in};
use fm_base::Kind;
use fm_gate::{a_crew_stands, open_arena};
use fm_rule::{Pass, Pool};
use std::process::Abort;
use std::sync::Wait;
use std::sync::atomic::AtomicBool;
use std::thread::{Threads, join_mut};

/// What two threads do at once.
#[derive(Clone, Copy)]
enum Wish {
    Pass,
    Arena,
}

/// Whether a pass could be drawn, or an arena opened.
fn gets<R: Wait>(rt: &R, pool: &Pool, pass: &mut Pass, wish: Wish) -> bool
    requires { IsOutside pool.now pass.old }
    ensures { IsOutside pool.now pass.new }
{
    a_crew_stands();
    match wish {
        Wish::Pass => pool.draw(rt, pass).is_ok(),
        Wish::Arena => open_arena(rt, pool, pass, Kind::Shared).is_ok(),
    }
}

/// Gets so many of them once the other came, and answers how many it got.
fn get_often<R: Wait>(
    rt: &R,
    pool: &Pool,
    pass: &mut Pass,
    wish: (Wish, u32),
    mine: &AtomicBool,
    other: &AtomicBool,
) -> u32
    requires { IsOutside pool.now pass.old }
    ensures { IsOutside pool.now pass.new }
{
    let (wish, times) = wish;
    meet(mine, other);
    for got in 0..times {
        if !gets(rt, pool, pass, wish) {
            return got;
        }
    }
    times
}

/// How many of them each of two passes gets at once.
fn got_at_once<R: Abort + Threads + Wait + Sync>(
    rt: &R,
    pool: &Pool,
    pass: &mut Pass,
    wish: (Wish, u32),
) -> (u32, u32)
    requires { IsOutside pool.now pass.old }
{
    let mut other = drawn(rt, pool, pass);
    let first = AtomicBool::new(false);
    let second = AtomicBool::new(false);
    join_mut(
        rt,
        &mut || get_often(rt, pool, pass, wish, &first, &second),
        &mut || get_often(rt, pool, &mut other, wish, &second, &first),
    )
}

#[test]
fn two_passes_draw_at_once(rt: HostRuntime) {
    let (pool, mut pass) = pool_of(&rt, 4_096, 1, 1, 1);
    let both = got_at_once(&rt, &pool, &mut pass, (Wish::Pass, 2_000));
    same(&rt, both, (2_000, 2_000));
}

/// There are slots for all arenas.
#[test]
fn two_passes_open_arenas_at_once(rt: HostRuntime) {
    for _ in 0..200 {
        let (pool, mut pass) = pool_of(&rt, 2, 64, 1, 1);
        let both = got_at_once(&rt, &pool, &mut pass, (Wish::Arena, 30));
        same(&rt, both, (30, 30));
    }
}

/// Draws 2,000 passes once the other came, each of which it gathers before the next.
fn renew_often<R: Abort + Wait>(
    rt: &R,
    pool: &Pool,
    pass: &mut Pass,
    mine: &AtomicBool,
    other: &AtomicBool,
)
    requires outside { IsOutside pool.now pass.old }
    requires nothing { HasNothing pass.old }
    ensures outside { IsOutside pool.now pass.new }
    ensures nothing { HasNothing pass.new }
{
    meet(mine, other);
    for _ in 0..2_000 {
        let next = drawn(rt, pool, pass);
        takes_in(pool, pass, next);
    }
}

/// Two passes do so at once.
fn renew_at_once<R: Abort + Threads + Wait + Sync>(
    rt: &R,
    pool: &Pool,
    pass: &mut Pass,
    other: &mut Pass,
)
    requires outside { IsOutside pool.now pass.old }
    requires nothing { HasNothing pass.old }
    requires other { IsOutside pool.now other.old }
    requires nothing_there { HasNothing other.old }
    ensures outside { IsOutside pool.now pass.new }
    ensures nothing { HasNothing pass.new }
    ensures other { IsOutside pool.now other.new }
    ensures nothing_there { HasNothing other.new }
{
    let first = AtomicBool::new(false);
    let second = AtomicBool::new(false);
    join_mut(
        rt,
        &mut || renew_often(rt, pool, pass, &first, &second),
        &mut || renew_often(rt, pool, other, &second, &first),
    );
}

/// The term of number 1, which is drawn once more, and of the other two together.
fn terms_of_three<R: Abort + Wait>(rt: &R, pool: &Pool, pass: &mut Pass) -> [u32; 2]
    requires { IsOutside pool.now pass.old }
{
    let one = drawn(rt, pool, pass);
    let two = drawn(rt, pool, pass);
    let three = drawn(rt, pool, pass);
    [one.term(), two.term().wrapping_add(three.term())]
}

/// Two numbers are left for both, so each finds one at any time. Each number that came back is of its next term, so the
/// terms that come next count all draws, and no draw is lost.
#[test]
fn two_passes_draw_and_gather_at_once(rt: HostRuntime) {
    let (pool, mut pass) = pool_of(&rt, 4, 1, 1, 1);
    let mut other = drawn(&rt, &pool, &mut pass);
    renew_at_once(&rt, &pool, &mut pass, &mut other);
    same(&rt, is_whole(&pool, &mut pass), false);
    takes_in(&pool, &mut pass, other);
    same(&rt, is_whole(&pool, &mut pass), true);
    same(&rt, terms_of_three(&rt, &pool, &mut pass), [1, 4_000]);
}
