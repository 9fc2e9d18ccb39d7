ghost use Rattle.std.specs.Prelude.{◌≡◌, ◌<◌, IfErr};
ghost use Rattle.fm_arena.specs.Shares.{CanShare};
ghost use Rattle.fm_gate.specs.Needs.{IsOutside};
ghost use Rattle.fm_rule_calls.specs.Told.{view_of_pass};
ghost use Rattle.fm_workers.specs.Beside.{SharesBeside};
ghost use Rattle.fm_workers.specs.Sharing.{SharedOut};

use crate::crew::Crew;
use fm_arena::Shared;
use fm_base::Refusal;
use fm_io::{AtGate, Gate};
use fm_rule::{Pass, Pool};
use fm_workers_crew::{Beside, Work, work_crew, work_crew_beside};
use fm_workers_jobs::Jobs;
use fm_workers_shares::{Batch, Job, Taker, Whole, finish, take_shares};
use std::alloc::Global;
use std::sync::Wait;
use std::thread::Threads;

/// What each pass of a crew does: it takes shares of a job.
#[derive(Drop)]
struct Taking<'a, R, G, J> {
    rt: &'a R,
    gate: &'a G,
    jobs: &'a Jobs,
    job: &'a J,
}

impl<'a, P, R: Wait + Sync, G: Gate, J: Job<P> + Sync> Work<Taker<P>> for Taking<'a, R, G, J> {
    ghost use Rattle.fm_rule_calls.specs.Told.{view_of_pass};
    ghost use Rattle.fm_workers_crew.specs.Crew.{by_caller};
    ghost use Rattle.fm_workers_shares.specs.Taking.{IsReady, Takes};
    ghost use Rattle.fm_workers.specs.Asking.{knows_later};

    ghost can = { λ w v t. J.can w.job.now (view_of_pass v) × IsReady (J.making w.job.now) w.jobs.now t };

    ghost does = { λ w. by_caller (λ c old new. Takes (J.making w.job.now) w.jobs.now c new) };

    fn work(&self, alloc: Global, memory: &mut Shared, taker: &mut Taker<P>) {
        let turns = AtGate {
            gate: self.gate,
            worker: taker.number,
        };
        take_shares(self.rt, alloc, &turns, self.jobs, memory, self.job, taker);
    }

    ghost stays = { λ w v u t same l c. (J.stays w.job.now (view_of_pass v) (view_of_pass u) (knows_later l) c.0, c.1) };
}

/// Draws a pass for each of a crew, lets all of them take the shares of a job, each at its calls of the gate, gathers
/// them, and joins what they made to the whole.
///
/// Refused, in this order: `Memory`, `NoPass`; then as the first pass was, in the order of the draws, that was refused.
pub(crate) fn share_out<
    R: Threads + Wait + Sync,
    G: Gate,
    P: Drop + Send,
    W: Whole<P>,
    J: Job<P> + Sync,
>(crew: &Crew<R, G>, pool: &Pool, pass: &mut Pass, job: &J, whole: &mut W) -> Result<(), Refusal>
    requires some { 0 < crew.now.threads }
    requires outside { IsOutside pool.now pass.old }
    requires can { J.can job.now (view_of_pass pass.old) }
    ensures shared { SharedOut (J.making job.now) W.joins crew.now.threads pass.old pass.new whole.old whole.new result }
    ensures outside { IsOutside pool.now pass.new }
{
    let Ok(batch) = Batch::new(crew.rt, crew.alloc, job, crew.threads) else {
        return Err(Refusal::Memory);
    };
    let Batch {
        jobs,
        giver,
        mut takers,
    } = batch;
    let work = Taking {
        rt: crew.rt,
        gate: crew.gate,
        jobs: &jobs,
        job,
    };
    match work_crew(crew.rt, crew.alloc, pool, pass, &work, &mut takers) {
        Ok(()) => finish(&jobs, giver, takers, whole),
        Err(refusal) => Err(refusal),
    }
}

/// As `share_out`, and the pass does something of its own while the crew takes the shares, in the caller's thread.
///
/// Not begun, in this order: `Memory`, `NoPass`; then nothing was done beside it.
pub(crate) fn share_out_beside<
    R: Threads + Wait + Sync,
    G: Gate,
    P: Drop + Send,
    W: Whole<P>,
    J: Job<P> + Sync,
    S,
    B: Beside<S>,
>(
    crew: &Crew<R, G>,
    pool: &Pool,
    pass: Pass,
    job: &J,
    whole: &mut W,
    beside: &mut B,
    with: &mut S,
) -> (Pass, Result<Result<(), Refusal>, Refusal>)
    requires some { 0 < crew.now.threads }
    requires shares { CanShare pool.now pass }
    requires can { J.can job.now (view_of_pass pass) }
    requires beside { B.can beside.old pass with.old }
    ensures shared { SharesBeside (J.making job.now) W.joins (B.does beside.old beside.new with.old with.new pass.caller)
        crew.now.threads pass result.0 whole.old whole.new result.1 }
    ensures untouched { IfErr result.1 (λ _. (beside.new ≡ beside.old) × (with.new ≡ with.old)) }
    ensures outside { IsOutside pool.now result.0 }
{
    let Ok(batch) = Batch::new(crew.rt, crew.alloc, job, crew.threads) else {
        return (pass, Err(Refusal::Memory));
    };
    let Batch {
        jobs,
        giver,
        mut takers,
    } = batch;
    let work = Taking {
        rt: crew.rt,
        gate: crew.gate,
        jobs: &jobs,
        job,
    };
    let (pass, worked) = work_crew_beside(
        crew.rt,
        crew.alloc,
        pool,
        pass,
        &work,
        &mut takers,
        beside,
        with,
    );
    match worked {
        Ok(()) => (pass, Ok(finish(&jobs, giver, takers, whole))),
        Err(refusal) => (pass, Err(refusal)),
    }
}
