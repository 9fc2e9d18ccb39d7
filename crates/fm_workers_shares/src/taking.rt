ghost use Rattle.std.specs.Prelude.{◌≡◌, None};
ghost use Rattle.fm_base.specs.View.{Did};
ghost use Rattle.fm_workers_shares.specs.Taking.{IsReady, Takes};

use crate::job::Job;
use crate::taker::Taker;
use fm_base::Memory;
use fm_io::Turns;
use fm_workers_jobs::Jobs;
use std::alloc::Global;
use std::sync::Wait;

/// Takes shares and does them, one after the other, up to the taker's stop or a refusal, and behind the stop what is left
/// to do. Each share is a call of the gate, and a stop is none.
pub fn take_shares<R: Wait, M: Memory, T: Turns, P, J: Job<P>>(
    rt: &R,
    alloc: Global,
    turns: &T,
    jobs: &Jobs,
    m: &mut M,
    job: &J,
    taker: &mut Taker<P>,
)
    requires outside { (M.view m.old).inside ≡ None }
    requires can { J.can job.now (M.view m.old) }
    requires ready { IsReady (J.making job.now) jobs.now taker.old }
    ensures did { Did (M.view m.old) (M.view m.new)
        (Takes (J.making job.now) jobs.now (M.view m.old).caller taker.new) }
    ensures outside { (M.view m.new).inside ≡ None }
{
    let mut call = 0u64;
    for _ in rt.forever() {
        let Some(number) = jobs.take(rt, &mut taker.turn) else {
            taker.end = job.end(m, &taker.part);
            return;
        };
        turns.before(rt, call);
        let done = job.share(alloc, m, number, &mut taker.part);
        turns.after(call);
        if let Err(refusal) = done {
            taker.end = Err(refusal);
            return;
        }
        call = call.wrapping_add(1);
    }
    unreachable!()
}
