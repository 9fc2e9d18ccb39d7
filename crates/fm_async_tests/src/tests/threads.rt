//! A thread that polls while another comes and goes. What they find is looked at as the tests run.
ghost use Rattle.fm_gate.specs.Needs.{CanVisit};
ghost use Rattle.fm_async.specs.Sets.{CanAdd};

use crate::tests::pools::{drawn, new_set, opened_beside, wide_pool};
use crate::tests::same;
use crate::tests::sets::swept;
use fm_async::SetCloser;
use fm_base::{ArenaId, Kind};
use fm_gate::{enter, leave};
use fm_rule::{Pass, Pool};
use std::alloc::AllocGlobal;
use std::process::Abort;
use std::sync::Wait;
use std::thread::{Threads, join_mut};

/// Polls until all arenas have ended.
fn poll_on<R: Wait>(rt: &R, set: &mut SetCloser<'_>) {
    for _ in rt.forever() {
        set.advance();
        if set.unfinished() == 0 {
            return;
        }
    }
}

/// Asks so often to come into an arena that was shut, and leaves where it came in. Answers how often it was refused.
fn come_and_go(pool: &Pool, pass: &mut Pass, arena: ArenaId, times: u32) -> u32
    requires { CanVisit pool.now pass.old arena }
{
    let mut refused: u32 = 0;
    for _ in 0..times {
        if is_refused(pool, pass, arena) {
            refused = refused.wrapping_add(1);
        }
    }
    refused
}

/// Whether the pass can't come into the arena. Where it can, it leaves.
fn is_refused(pool: &Pool, pass: &mut Pass, arena: ArenaId) -> bool
    requires { CanVisit pool.now pass.old arena }
    ensures { CanVisit pool.now pass.new arena }
{
    if enter(pool, pass, arena).is_err() {
        return true;
    }
    leave(pool, pass);
    false
}

/// Shuts the arena, and polls until it has ended.
fn close_one<R: Abort + Wait>(rt: &R, set: &mut SetCloser<'_>, arena: ArenaId)
    requires { CanAdd set.old arena }
{
    same(rt, set.add(arena), Ok(()));
    poll_on(rt, set);
}

/// One thread closes the arena by polls, while the other comes and goes so often, or is refused.
fn race<R: Abort + Threads + Wait + Sync>(
    rt: &R,
    pool: &Pool,
    set: &mut SetCloser<'_>,
    theirs: &mut Pass,
    arena: ArenaId,
    times: u32,
) -> u32
    requires add { CanAdd set.old arena }
    requires visit { CanVisit pool.now theirs.old arena }
{
    let ((), refused) = join_mut(
        rt,
        &mut || close_one(rt, set, arena),
        &mut || come_and_go(pool, theirs, arena, times),
    );
    refused
}

/// An arena ends while a pass comes and goes so often, and is swept then.
fn raced<R: Abort + AllocGlobal + Threads + Wait + Sync>(rt: &R, times: u32) {
    let (pool, mut ours) = wide_pool(rt);
    let arena = opened_beside(rt, &pool, &mut ours, Kind::Shared);
    let mut theirs = drawn(rt, &pool, &mut ours);
    let mut set = new_set(rt, &pool, ours);
    let refused = race(rt, &pool, &mut set, &mut theirs, arena, times);
    same(rt, refused <= times, true);
    swept(rt, set, 1);
}

#[test]
fn an_arena_ends_while_another_thread_comes_and_goes(rt: HostRuntime) {
    raced(&rt, 100_000);
}
