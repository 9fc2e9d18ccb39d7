ghost use Rattle.std.specs.Prelude.{◌≤◌, ◌<◌};
ghost use Rattle.fm_gate.specs.Needs.{CanLeave};
ghost use Rattle.fm_async_tests.specs.Knows.{IsReader};

use crate::tests::pools::{filled, opened_all, reader_in, wide_pool};
use crate::tests::same;
use fm_async::{SetCloser, SetFuture};
use fm_gate::leave;
use fm_rule::{Pass, Pool};
use futures::task::Poll;
use futures::test::MockTask;
use std::alloc::AllocGlobal;
use std::process::Abort;
use std::random::RandomSource;
use std::sync::Wait;

/// What a poll of a set answers, and the blockers of its first three arenas then.
type Polled = (Option<u32>, [Option<u32>; 3]);

/// One poll of a future, which is dropped then.
fn polled<R: Abort + RandomSource + AllocGlobal>(rt: &R, set: &mut SetCloser<'_>) -> Polled {
    let task = MockTask::new(rt).expect(rt, "a task");
    let mut future = set.future();
    same(rt, blockers(&future), [None, None, None]);
    let ready = match task.poll(&mut future) {
        Poll::Ready(count) => Some(count),
        Poll::Pending => None,
    };
    same(rt, task.is_woken(), ready.is_none());
    (ready, blockers(&future))
}

fn blockers(future: &SetFuture<'_, '_>) -> [Option<u32>; 3] {
    [blocker(future, 0), blocker(future, 1), blocker(future, 2)]
}

fn blocker(future: &SetFuture<'_, '_>, i: u32) -> Option<u32> {
    if i < future.len() {
        future.blocker(i)
    } else {
        None
    }
}

/// All arenas of the set have ended: they are swept, and the pass comes back.
pub(crate) fn swept<R: Abort>(rt: &R, set: SetCloser<'_>, count: u32) {
    let mut set = set;
    same(rt, set.len(), count);
    assert!(rt; set.unfinished() == 0);
    set.sweep();
    same(rt, set.len(), 0);
    set.into_pass();
}

/// A set of so many arenas, of which a reader is inside one. That one alone is in the way, until the reader has left.
fn blocked_by_one<R: Abort + Wait + RandomSource + AllocGlobal>(rt: &R, count: usize, i: usize)
    requires few { count ≤ 64 }
    requires there { i < count }
{
    let (pool, mut ours) = wide_pool(rt);
    let arenas = opened_all(rt, &pool, &mut ours, count);
    let mut theirs = reader_in(rt, &pool, &mut ours, &arenas, i);
    let mut set = filled(rt, &pool, ours, &arenas);
    let wanted = [
        (i == 0).then_some(1),
        (i == 1).then_some(1),
        (i == 2).then_some(1),
    ];
    same(rt, set.unfinished(), count as u32);
    same(rt, polled(rt, &mut set), (None, wanted));
    same(rt, set.unfinished(), 1);
    leave(&pool, &mut theirs);
    same(
        rt,
        polled(rt, &mut set),
        (Some(count as u32), [None, None, None]),
    );
    swept(rt, set, count as u32);
}

#[test]
fn the_arena_of_a_reader_is_in_the_way_alone(rt: HostRuntime) {
    blocked_by_one(&rt, 1, 0);
    blocked_by_one(&rt, 2, 1);
    blocked_by_one(&rt, 64, 2);
    blocked_by_one(&rt, 64, 63);
}

/// Lets the reader out of its arena, if it is still there.
fn let_out(pool: &Pool, reader: &mut Option<Pass>)
    requires { IsReader pool.now reader.old }
    ensures { IsReader pool.now reader.new }
{
    if let Some(mut pass) = reader.take() {
        leave(pool, &mut pass);
    }
}

/// Three arenas, with a reader each, end in the order in which the readers leave.
fn ended_in_order<R: Abort + Wait + RandomSource + AllocGlobal>(rt: &R, order: [u32; 3]) {
    let (pool, mut ours) = wide_pool(rt);
    let arenas = opened_all(rt, &pool, &mut ours, 3);
    let first = reader_in(rt, &pool, &mut ours, &arenas, 0);
    let second = reader_in(rt, &pool, &mut ours, &arenas, 1);
    let third = reader_in(rt, &pool, &mut ours, &arenas, 2);
    let set = filled(rt, &pool, ours, &arenas);
    end_in_order(rt, &pool, set, (first, second, third), order);
}

/// The readers leave in this order, and the set is polled each time.
fn end_in_order<R: Abort + RandomSource + AllocGlobal>(
    rt: &R,
    pool: &Pool,
    mut set: SetCloser<'_>,
    readers: (Pass, Pass, Pass),
    order: [u32; 3],
)
    requires first { CanLeave pool.now readers.0 }
    requires second { CanLeave pool.now readers.1 }
    requires third { CanLeave pool.now readers.2 }
{
    let (first, second, third) = readers;
    let mut first = Some(first);
    let mut second = Some(second);
    let mut third = Some(third);
    same(
        rt,
        polled(rt, &mut set),
        (None, [Some(1), Some(2), Some(3)]),
    );
    for i in order {
        match i {
            0 => let_out(pool, &mut first),
            1 => let_out(pool, &mut second),
            _ => let_out(pool, &mut third),
        }
        let left = [
            first.is_some().then_some(1),
            second.is_some().then_some(2),
            third.is_some().then_some(3),
        ];
        let ready = (left == [None, None, None]).then_some(3);
        same(rt, polled(rt, &mut set), (ready, left));
    }
    swept(rt, set, 3);
}

#[test]
fn three_arenas_end_in_each_order(rt: HostRuntime) {
    ended_in_order(&rt, [0, 1, 2]);
    ended_in_order(&rt, [0, 2, 1]);
    ended_in_order(&rt, [1, 0, 2]);
    ended_in_order(&rt, [1, 2, 0]);
    ended_in_order(&rt, [2, 0, 1]);
    ended_in_order(&rt, [2, 1, 0]);
}
