ghost use Rattle.std.specs.Prelude.{◌≡◌, ◌<◌, IfOk, length, map};
ghost use Rattle.std.specs.List.{AllByRecursion, range_with_len};
ghost use Rattle.fm_workers_jobs.specs.Turns.{account_of, HasAccount, IsGiver};
ghost use Rattle.fm_workers_shares.specs.Taking.{IsReady};
ghost use Rattle.fm_workers_shares.specs.Batches.{IsBegun, after_turns};

use crate::job::Job;
use crate::taker::Taker;
use fm_workers_jobs::{Jobs, Turn};
use std::alloc::{AllocError, Global};
use std::sync::Wait;

/// Shares to be taken: all of them stand in the queue, and behind them a stop for each taker.
#[derive(Drop)]
pub struct Batch<P> {
    pub jobs: Jobs,
    /// What the jobs were pushed with; it takes the takers' turns back.
    pub giver: Turn,
    pub takers: Vec<Taker<P>>,
}

impl<P: Drop> Batch<P> {
    /// The shares of a job for so many takers, who are numbered from 1 on.
    pub fn new<R: Wait, J: Job<P>>(
        rt: &R,
        alloc: Global,
        job: &J,
        takers: u32,
    ) -> Result<Batch<P>, AllocError>
        requires some { 0 < takers }
        ensures { IfOk result (IsBegun (J.making job.now) takers) }
    {
        let shares = job.count();
        let (jobs, mut giver) = Jobs::new(alloc, shares as usize + takers as usize)?;
        jobs.push_batch(rt, &mut giver, 0, shares, takers);
        let takers = call_takers(alloc, &jobs, &mut giver, job, takers)?;
        Ok(Batch {
            jobs,
            giver,
            takers,
        })
    }
}

/// So many takers, each with a turn of its own.
fn call_takers<P: Drop, J: Job<P>>(
    alloc: Global,
    jobs: &Jobs,
    giver: &mut Turn,
    job: &J,
    count: u32,
) -> Result<Vec<Taker<P>>, AllocError>
    requires { IsGiver jobs.now giver.old }
    ensures ready { IfOk result (λ takers. AllByRecursion (IsReady (J.making job.now) jobs.now) takers.items) }
    ensures count { IfOk result (λ takers. length takers.items ≡ count) }
    ensures numbers { IfOk result
        (λ takers. map (λ t. t.number) takers.items ≡ range_with_len 1 count) }
    ensures giver { IfOk result
        (λ _. HasAccount jobs.now giver.new (after_turns (account_of giver.old) count)) }
{
    let mut takers = Vec::with_capacity(alloc, count as usize)?;
    for k in 0..count {
        takers.push_reserved(Taker {
            number: k + 1,
            turn: jobs.another(giver),
            part: job.none(alloc),
            end: Ok(()),
        });
    }
    Ok(takers)
}
