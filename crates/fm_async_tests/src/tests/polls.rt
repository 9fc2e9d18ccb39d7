use crate::tests::pools::{begun, opened, reader, small_pool};
use crate::tests::same;
use fm_async::Closer;
use fm_base::Kind;
use fm_close::Visit;
use fm_gate::{is_alive, leave, open_arena};
use futures::task::Poll;
use futures::test::MockTask;
use std::alloc::AllocGlobal;
use std::process::Abort;
use std::random::RandomSource;
use std::sync::Wait;

/// How a close is gone on with.
#[derive(Clone, Copy, Debug)]
enum By {
    /// By one poll of a future, which is dropped then.
    Future,
    Advance,
    /// By visits up to one that isn't `Next`.
    Steps,
}

/// Goes on with the close. Answers the number whose mark is in the way, if one is.
fn gone_on<R: Abort + RandomSource + AllocGlobal>(
    rt: &R,
    closer: &mut Closer<'_>,
    by: By,
) -> Option<u32> {
    match by {
        By::Future => polled(rt, closer),
        By::Advance => closer.advance(),
        By::Steps => stepped(closer),
    }
}

fn polled<R: Abort + RandomSource + AllocGlobal>(rt: &R, closer: &mut Closer<'_>) -> Option<u32> {
    let task = MockTask::new(rt).expect(rt, "a task");
    let arena = closer.arena();
    let mut future = closer.future();
    same(rt, future.blocker(), None);
    let answer = task.poll(&mut future);
    let blocker = future.blocker();
    match answer {
        Poll::Ready(ended) => same(rt, (ended, blocker), (arena, None)),
        Poll::Pending => same(rt, blocker.is_some(), true),
    }
    same(rt, task.is_woken(), blocker.is_some());
    blocker
}

fn stepped(closer: &mut Closer<'_>) -> Option<u32> {
    for _ in 0..2 {
        if closer.is_ended() {
            return None;
        }
        if let Visit::Inside(k) = closer.step() {
            return Some(k);
        }
    }
    None
}

/// An arena is closed that a reader is inside: twice the close is gone on with before the reader leaves, and once after that.
fn closed<R: Abort + Wait + RandomSource + AllocGlobal>(rt: &R, before: By, after: By) {
    let (pool, mut ours) = small_pool(rt);
    let arena = opened(rt, &pool, &mut ours);
    let mut theirs = reader(rt, &pool, &mut ours, arena);
    let mut closer = begun(rt, &pool, ours, arena);
    same(rt, gone_on(rt, &mut closer, before), Some(1));
    same(rt, gone_on(rt, &mut closer, before), Some(1));
    same(rt, closer.is_ended(), false);
    leave(&pool, &mut theirs);
    same(rt, gone_on(rt, &mut closer, after), None);
    swept(rt, closer, after);
}

/// The arena has ended, and polls go on to say so; then its slot is another arena's.
fn swept<R: Abort + Wait + RandomSource + AllocGlobal>(rt: &R, closer: Closer<'_>, by: By) {
    let mut closer = closer;
    same(rt, gone_on(rt, &mut closer, by), None);
    assert!(rt; closer.is_ended());
    let pool = closer.pool();
    let arena = closer.arena();
    let mut pass = closer.sweep();
    same(rt, is_alive(pool, &mut pass, arena), Ok(false));
    same(
        rt,
        open_arena(rt, pool, &mut pass, Kind::Shared).is_ok(),
        true,
    );
}

#[test]
fn a_close_is_gone_on_with_in_each_way(rt: HostRuntime) {
    closed(&rt, By::Future, By::Future);
    closed(&rt, By::Future, By::Steps);
    closed(&rt, By::Advance, By::Future);
    closed(&rt, By::Steps, By::Advance);
}
