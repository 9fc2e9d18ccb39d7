ghost use Rattle.fm_gate.specs.Needs.{CanVisit};

use crate::tests::pools::{opened, small_pool};
use crate::tests::same;
use crate::tests::unlucky::Unlucky;
use fm_async::{Closer, Start, close_by_poll};
use fm_base::{ArenaId, Refusal};
use fm_gate::{hold, unhold};
use fm_rule::{Pass, Pool};
use std::alloc::AllocGlobal;
use std::process::Abort;
use std::random::RandomSource;
use std::sync::Wait;

/// An arena is closed by polls that wait so: refused while it is held, and once it is closed. Then its slot is another arena's.
fn closed<R: Abort + AllocGlobal + Wait, W: Wait + RandomSource + AllocGlobal>(rt: &R, polls: &W) {
    let (pool, mut pass) = small_pool(rt);
    let arena = opened(rt, &pool, &mut pass);
    let held = hold(rt, &pool, &mut pass, arena).expect(rt, "alive");
    same(
        rt,
        close_by_poll(polls, &pool, &mut pass, arena),
        Err(Refusal::Held(1)),
    );
    unhold(&pool, &mut pass, held);
    closed_once(rt, polls, &pool, &mut pass, arena);
    match Closer::start(&pool, pass, arena) {
        Start::Begun(_closer) => panic!(rt; "begun"),
        Start::Refused(mut pass, refusal) => {
            same(rt, refusal, Refusal::Closed);
            opened(rt, &pool, &mut pass);
        }
    }
}

/// An arena that isn't held is closed by polls, and once only.
fn closed_once<R: Abort, W: Wait + RandomSource + AllocGlobal>(
    rt: &R,
    polls: &W,
    pool: &Pool,
    pass: &mut Pass,
    arena: ArenaId,
)
    requires { CanVisit pool.now pass.old arena }
    ensures { CanVisit pool.now pass.new arena }
{
    same(rt, close_by_poll(polls, pool, pass, arena), Ok(()));
    same(
        rt,
        close_by_poll(polls, pool, pass, arena),
        Err(Refusal::Closed),
    );
}

#[test]
fn an_arena_is_closed_by_polls_and_without(rt: HostRuntime) {
    closed(&rt, &rt);
    closed(&rt, &Unlucky { rt: &rt });
}
