ghost use Rattle.std.specs.Prelude.{◌<◌};

use super::made;
use crate::compared::same;
use fm_arena::Shared;
use fm_base::Refusal;
use fm_workers_crew::{Then, Work, work_crew_then};
use std::alloc::{AllocGlobal, Global};
use std::process::Abort;
use std::sync::Wait;
use std::thread::Threads;

/// Raises each task, and then reads all of them as the digits of one number. It makes no entry.
#[derive(Drop)]
struct Digits {
    read: u32,
    times: u32,
}

impl Work<u32> for Digits {
    ghost use Rattle.std.specs.Prelude.{◌≡◌, [], ⊤};

    ghost can = { λ work v task. ⊤ };

    ghost does = { λ work v old new own. own ≡ [] };

    fn work(&self, _alloc: Global, _memory: &mut Shared, task: &mut u32) {
        *task = task.saturating_add(1);
    }

    ghost stays = { λ work p q task same lasts can. can };
}

impl Then<u32> for Digits {
    ghost use Rattle.std.specs.Prelude.{◌≡◌, [], ⊤};

    ghost can_go_on = { λ work v. ⊤ };

    ghost goes_on = { λ old new tasks caller own. own ≡ [] };

    fn go_on(&mut self, _alloc: Global, _memory: &mut Shared, tasks: &[u32]) {
        for task in tasks {
            self.read = self.read.saturating_mul(10).saturating_add(*task);
        }
        self.times = self.times.saturating_add(1);
    }

    ghost still_can = { λ work p q lasts can. can };
}

/// What comes of a crew at these tasks in a pool of so many passes.
fn worked<R: Abort + AllocGlobal + Threads + Wait + Sync>(
    rt: &R,
    passes: u32,
    tasks: &[u32],
) -> (Result<(), Refusal>, Digits, Vec<u32>)
    requires some { 0 < passes }
    requires few { passes < 65 }
{
    let alloc = rt.alloc();
    let (pool, mut pass) = made(rt, passes, 8);
    let mut tasks = Vec::from_slice(alloc, tasks).expect(rt, "tasks");
    let mut digits = Digits { read: 0, times: 0 };
    let done = work_crew_then(rt, alloc, &pool, &mut pass, &mut digits, &mut tasks);
    (done, digits, tasks)
}

#[test]
fn one_goes_on_over_all_tasks(rt: HostRuntime) {
    let (done, digits, tasks) = worked(&rt, 4, &[1, 2, 3]);
    same(&rt, done, Ok(()));
    same(&rt, digits.read, 234);
    same(&rt, digits.times, 1);
    same(&rt, tasks.as_slice(), &[2, 3, 4][..]);
}

#[test]
fn nobody_goes_on_where_a_pass_is_wanting(rt: HostRuntime) {
    let (done, digits, tasks) = worked(&rt, 3, &[1, 2, 3]);
    same(&rt, done, Err(Refusal::NoPass));
    same(&rt, digits.times, 0);
    same(&rt, tasks.as_slice(), &[1, 2, 3][..]);
}

#[test]
fn nobody_goes_on_without_a_task(rt: HostRuntime) {
    let (done, digits, _tasks) = worked(&rt, 1, &[]);
    same(&rt, done, Ok(()));
    same(&rt, digits.times, 0);
}
