//! A close waits for a visit, which goes on as if there were none.
ghost use Rattle.fm_rule_calls.specs.Told.{view_of_pass};
ghost use Rattle.fm_gate.specs.Needs.{CanVisit};
ghost use Rattle.fm_segment.specs.Learnt.{CanUse};
ghost use Rattle.fm_arena.specs.Shares.{CanShare};

use crate::tests::calls::same;
use crate::tests::memories::stays_out;
use crate::tests::pools::{both, filled, one_slot, tell};
use fm_arena::{Shared, keeps_its_pool};
use fm_async::{Closer, Start};
use fm_base::{ArenaId, Kind, Refusal};
use fm_close as close;
use fm_rule::{Pass, Pool};
use fm_segment::Segment;
use fm_visit::Visit;
use futures::task::Poll;
use futures::test::MockTask;
use std::alloc::AllocGlobal;
use std::process::Abort;
use std::random::RandomSource;
use std::sync::Wait;

/// How a close is gone on with.
#[derive(Clone, Copy, Debug)]
enum By {
    /// By visits up to one that isn't `Next`.
    Visits,
    /// By polls of the loop's own.
    Polls,
    /// By a poll of a future, which is dropped then.
    Future,
}

/// Goes on with the close. Answers the number whose mark is in the way, if one is.
fn gone_on<R: Abort + RandomSource + AllocGlobal>(
    rt: &R,
    closer: &mut Closer<'_>,
    by: By,
) -> Option<u32> {
    match by {
        By::Visits => visited(closer),
        By::Polls => closer.advance(),
        By::Future => polled(rt, closer),
    }
}

fn visited(closer: &mut Closer<'_>) -> Option<u32> {
    for _ in 0..2 {
        if closer.is_ended() {
            return None;
        }
        if let close::Visit::Inside(k) = closer.step() {
            return Some(k);
        }
    }
    None
}

fn polled<R: Abort + RandomSource + AllocGlobal>(rt: &R, closer: &mut Closer<'_>) -> Option<u32> {
    let task = MockTask::new(rt).expect(rt, "a task");
    let mut future = closer.future();
    let is_ready = matches!(task.poll(&mut future), Poll::Ready(_));
    let blocker = future.blocker();
    same(rt, is_ready, blocker.is_none());
    blocker
}

/// A pass that can close the arena of a segment, and a memory that can visit it.
fn scene<'a, R: Abort + Wait>(rt: &R, pool: &'a Pool, pass: Pass) -> (Pass, Shared<'a>, Segment)
    requires { CanShare pool.now pass }
    ensures closer { CanVisit pool.now result.0 result.2.arena }
    ensures visitor { CanUse (view_of_pass result.1) result.2 }
{
    keeps_its_pool();
    let (mut ours, mut theirs) = both(rt, pool, pass);
    let s = filled(rt, &mut ours, Kind::Shared);
    tell(&mut ours, &mut theirs, &s);
    (ours.into_pass(), theirs, s)
}

/// The close of an arena is begun.
fn begun<'p, R: Abort>(rt: &R, pool: &'p Pool, pass: Pass, arena: ArenaId) -> Closer<'p>
    requires { CanVisit pool.now pass arena }
{
    match Closer::start(pool, pass, arena) {
        Start::Begun(closer) => closer,
        Start::Refused(_, _) => panic!(rt; "refused"),
    }
}

/// The visitor, whose number is 1, is in the way until it leaves; its acts are answered as ever, and then it stays out.
fn waits<R: Abort + Wait + RandomSource + AllocGlobal>(rt: &R, by: By) {
    let (pool, pass) = one_slot(rt);
    let (ours, mut theirs, s) = scene(rt, &pool, pass);
    let visit = Visit::enter(&mut theirs, s.arena()).expect(rt, "alive");
    let mut closer = begun(rt, &pool, ours, s.arena());
    same(rt, gone_on(rt, &mut closer, by), Some(1));
    let set = visit.set_word(&mut theirs, &s, 8, 7);
    same(rt, gone_on(rt, &mut closer, by), Some(1));
    let mut words = [0; 2];
    let got = visit.get_words(&mut theirs, &s, 0, &mut words);
    same(rt, gone_on(rt, &mut closer, by), Some(1));
    visit.leave(&mut theirs);
    same(rt, (set, got, words), (Ok(()), Ok(()), [1, 7]));
    same(rt, gone_on(rt, &mut closer, by), None);
    stays_out(rt, &mut theirs, s.arena(), Refusal::Closed);
    assert!(rt; closer.is_ended());
    closer.sweep();
}

#[test]
fn a_close_waits_until_the_visitor_leaves(rt: HostRuntime) {
    for by in [By::Visits, By::Polls, By::Future] {
        waits(&rt, by);
    }
}
