ghost use Rattle.fm_workers_jobs.specs.Turns.{CanTake, IsTaker};

use crate::compared::same;
use fm_workers_jobs::{Jobs, Turn};
use std::alloc::AllocGlobal;
use std::process::Abort;
use std::sync::Wait;
use std::thread;

/// One taker in the giver's own thread: jobs come in order, and then its stop.
#[test]
fn jobs_come_in_order(rt: HostRuntime) {
    let (jobs, mut giver) = Jobs::new(rt.alloc(), 4).expect(&rt, "room");
    let mut taker = jobs.another(&mut giver);
    jobs.push_job(&rt, &mut giver, 7);
    same(&rt, jobs.take(&rt, &mut taker), Some(7));
    jobs.push_job(&rt, &mut giver, u32::MAX);
    jobs.push_job(&rt, &mut giver, 7);
    jobs.push_stop(&rt, &mut giver);
    same(&rt, jobs.take(&rt, &mut taker), Some(u32::MAX));
    same(&rt, jobs.take(&rt, &mut taker), Some(7));
    same(&rt, jobs.take(&rt, &mut taker), None);
    jobs.absorb(&mut giver, taker);
    jobs.settle(&mut giver);
}

/// A batch for two takers; a range that ends before it begins has no job.
#[test]
fn each_taker_has_a_stop(rt: HostRuntime) {
    let (jobs, mut giver) = Jobs::new(rt.alloc(), 4).expect(&rt, "room");
    let mut first = jobs.another(&mut giver);
    let mut second = jobs.another(&mut giver);
    jobs.push_batch(&rt, &mut giver, 5, 3, 0);
    jobs.push_batch(&rt, &mut giver, 3, 5, 2);
    same(&rt, jobs.take(&rt, &mut first), Some(3));
    same(&rt, jobs.take(&rt, &mut second), Some(4));
    same(&rt, jobs.take(&rt, &mut second), None);
    same(&rt, jobs.take(&rt, &mut first), None);
    jobs.absorb(&mut giver, second);
    jobs.absorb(&mut giver, first);
    jobs.settle(&mut giver);
}

/// More than any memory has.
#[test]
fn too_much_room_is_refused(rt: HostRuntime) {
    same(&rt, Jobs::new(rt.alloc(), 1 << 60).is_err(), true);
}

/// Takes to its stop, and answers what it took.
fn take_all<R: Abort + AllocGlobal + Wait>(rt: &R, jobs: &Jobs, turn: &mut Turn) -> Vec<u32>
    requires { CanTake jobs.now turn.old }
    ensures { IsTaker jobs.now turn.new }
{
    let mut taken = Vec::new(rt.alloc());
    for _ in rt.forever() {
        match jobs.take(rt, turn) {
            Some(job) => same(rt, taken.push(job).is_ok(), true),
            None => break,
        }
    }
    taken
}

/// Adds how often each of the first jobs was taken.
fn count(times: &mut Vec<u8>, taken: &[u32]) {
    for job in taken {
        if let Some(n) = times.get_mut(*job as usize) {
            *n = n.saturating_add(1);
        }
    }
}

/// Whether the two lists have each of so many jobs once.
fn each_once<R: Abort + AllocGlobal>(rt: &R, first: &[u32], second: &[u32], jobs: usize) {
    let mut times = Vec::from_elem(rt.alloc(), 0u8, jobs).expect(rt, "room");
    count(&mut times, first);
    count(&mut times, second);
    for n in times {
        same(rt, n, 1);
    }
}

/// Two takers in threads of their own: each job is taken, and none twice.
#[test]
fn each_job_is_taken_once(rt: HostRuntime) {
    let (jobs, mut giver) = Jobs::new(rt.alloc(), 20_002).expect(&rt, "room");
    let jobs = &jobs;
    let mut first = jobs.another(&mut giver);
    let mut second = jobs.another(&mut giver);
    jobs.push_batch(&rt, &mut giver, 0, 20_000, 2);
    let ((first, by_first), (second, by_second)) = thread::join(
        &rt,
        move ||
            requires { CanTake jobs.now first }
            ensures { IsTaker jobs.entry.now result.0 }
        {
            let taken = take_all(&rt, jobs, &mut first);
            (first, taken)
        },
        move ||
            requires { CanTake jobs.now second }
            ensures { IsTaker jobs.entry.now result.0 }
        {
            let taken = take_all(&rt, jobs, &mut second);
            (second, taken)
        },
    );
    jobs.absorb(&mut giver, first);
    jobs.absorb(&mut giver, second);
    jobs.settle(&mut giver);
    each_once(&rt, by_first.as_slice(), by_second.as_slice(), 20_000);
}
