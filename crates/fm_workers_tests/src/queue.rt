ghost use Rattle.std.specs.Prelude.{◌≡◌, length};
ghost use Rattle.fm_workers_queue.specs.Turns.{IsOwner, IsUser};

use crate::compared::same;
use fm_workers_queue::{Promise, Queue, Turn};
use std::alloc::AllocGlobal;
use std::process::Abort;
use std::sync::Wait;
use std::thread;

/// Each number is less than 1,000. None ends a taker.
struct Small;

impl Promise<Option<u32>> for Small {
    ghost use Rattle.std.specs.Prelude.{◌<◌, IfSome};

    ghost promises = { λ job. IfSome job (λ n. n < 1000) };
}

/// The owner's thread alone: jobs come in order, and an empty queue gives none.
#[test]
fn jobs_of_any_kind_come_in_order(rt: HostRuntime) {
    let (queue, mut owner) = Queue::<Option<u32>, Small>::new(rt.alloc(), 2).expect(&rt, "room");
    same(&rt, queue.try_take(&rt, &mut owner), None);
    queue.push(&rt, &mut owner, Some(7));
    queue.push(&rt, &mut owner, None);
    same(&rt, queue.take(&rt, &mut owner), Some(7));
    same(&rt, queue.try_take(&rt, &mut owner), Some(None));
    same(&rt, queue.try_take(&rt, &mut owner), None);
    queue.settle(&mut owner);
}

/// Pushes each number, and behind them the end.
fn push_all<R: Wait>(rt: &R, queue: &Queue<Option<u32>, Small>, turn: &mut Turn<Option<u32>>)
    requires { IsOwner queue.now turn.old }
    ensures { IsOwner queue.now turn.new }
{
    for n in 0..1_000 {
        queue.push(rt, turn, Some(n));
    }
    queue.push(rt, turn, None);
}

/// Takes up to the end, and counts each number. That it is less than 1,000 is what jobs promise.
fn count_all<R: Wait>(
    rt: &R,
    queue: &Queue<Option<u32>, Small>,
    turn: &mut Turn<Option<u32>>,
    times: &mut [u8],
)
    requires turn { IsUser queue.now turn.old }
    requires room { length times.old ≡ 1000 }
    ensures { IsUser queue.now turn.new }
{
    for _ in rt.forever() {
        match queue.take(rt, turn) {
            Some(n) => times[n as usize] = times[n as usize].saturating_add(1),
            None => return,
        }
    }
}

/// One thread pushes while another takes: each job is taken once.
#[test]
fn jobs_are_taken_beside_pushes(rt: HostRuntime) {
    let (queue, mut owner) = Queue::<Option<u32>, Small>::new(rt.alloc(), 1_001).expect(
        &rt, "room",
    );
    let queue = &queue;
    let mut user = queue.another(&mut owner);
    let mut times = Vec::from_elem(rt.alloc(), 0u8, 1_000).expect(&rt, "room");
    let counts = times.as_mut_slice();
    let ((owner, ()), (user, ())) = thread::join(
        &rt,
        move ||
            requires { IsOwner queue.now owner }
            ensures { IsOwner queue.entry.now result.0 }
        {
            push_all(&rt, queue, &mut owner);
            (owner, ())
        },
        move ||
            requires { IsUser queue.now user × (length counts.now ≡ 1000) }
            ensures { IsUser queue.entry.now result.0 }
        {
            count_all(&rt, queue, &mut user, counts);
            (user, ())
        },
    );
    let mut owner = owner;
    queue.absorb(&mut owner, user);
    for n in times {
        same(&rt, n, 1);
    }
}
