ghost use Rattle.std.specs.Prelude.{◌≡◌, IfErr};
ghost use Rattle.fm_gate.specs.Needs.{IsOutside};
ghost use Rattle.fm_workers.specs.Beside.{AsksBeside, CanQueryBeside};
ghost use Rattle.fm_workers.specs.Query.{CanQueryWith, QueriedWith};

use crate::crew::Crew;
use crate::sharing::{share_out, share_out_beside};
use fm_base::Refusal;
use fm_io::Gate;
use fm_records::Answer;
use fm_records_query::Query;
use fm_rule::{Pass, Pool};
use fm_segment::Segment;
use fm_workers_crew::Beside;
use fm_workers_shares::{Job, Shares, Slots};
use std::alloc::Global;
use std::sync::Wait;
use std::thread::Threads;

/// What a query answers over the records of a segment, by so many passes that are drawn for it, each in a thread of its
/// own where one can be started. The records are cut into at most four shares a pass, and the passes take them from one
/// queue, each share once. They are gathered again, after a refusal too; they make all accesses, each a visit with one
/// Read. Workers are numbered from 1 in the order of the draws. Each share that a worker takes is a call of the gate,
/// counted from 0 for each worker.
///
/// Refused, in this order: `Ragged` with the number of bytes behind the last whole record; `WrongThread`, exactly where
/// the arena is confined; `Memory`, or `NoPass` where a draw finds no free number, or no draw can be counted any more;
/// then `Closed` or `Memory`, as the first pass was, in the order of the draws, that was refused at a share; where none
/// was, `Memory` when the answers are joined. Numbers that were drawn are free again, but those of their last term.
pub fn query_with<R: Threads + Wait + Sync, G: Gate>(
    rt: &R,
    alloc: Global,
    pool: &Pool,
    pass: &mut Pass,
    q: &Query,
    s: &Segment,
    threads: u32,
    gate: &G,
) -> Result<Answer, Refusal>
    requires { CanQueryWith pool.now pass.old q.now s.now threads }
    ensures queried { QueriedWith threads pass.old pass.new q.now s.now result }
    ensures outside { IsOutside pool.now pass.new }
{
    let rest = s.size() % q.record_size();
    if rest != 0 {
        return Err(Refusal::Ragged(rest));
    }
    if s.arena().is_confined() {
        return Err(Refusal::WrongThread);
    }
    let shares = Shares::of(q, s, threads);
    let Ok(mut slots) = Slots::new(alloc, shares.count()) else {
        return Err(Refusal::Memory);
    };
    let crew = Crew {
        rt,
        alloc,
        threads,
        gate,
    };
    match share_out(&crew, pool, pass, &shares, &mut slots) {
        Ok(()) => slots.join_all(alloc, q),
        Err(refusal) => Err(refusal),
    }
}

/// As `query_with`, over whole records of an arena that isn't confined, and the pass does something of its own while the
/// crew takes the shares, in the caller's thread.
///
/// Not begun, in this order: `Memory`, `NoPass`; then nothing was done beside it. Refused: `Closed` or `Memory`, as by
/// `query_with`.
pub fn query_beside<R: Threads + Wait + Sync, G: Gate, S, B: Beside<S>>(
    rt: &R,
    alloc: Global,
    pool: &Pool,
    pass: Pass,
    q: &Query,
    s: &Segment,
    threads: u32,
    gate: &G,
    beside: &mut B,
    with: &mut S,
) -> (Pass, Result<Result<Answer, Refusal>, Refusal>)
    requires can { CanQueryBeside pool.now pass q.now s.now threads }
    requires beside { B.can beside.old pass with.old }
    ensures asks { AsksBeside (B.does beside.old beside.new with.old with.new pass.caller) threads pass
        result.0 q.now s.now result.1 }
    ensures untouched { IfErr result.1 (λ _. (beside.new ≡ beside.old) × (with.new ≡ with.old)) }
    ensures outside { IsOutside pool.now result.0 }
{
    let shares = Shares::of(q, s, threads);
    let Ok(mut slots) = Slots::new(alloc, shares.count()) else {
        return (pass, Err(Refusal::Memory));
    };
    let crew = Crew {
        rt,
        alloc,
        threads,
        gate,
    };
    let (pass, shared) = share_out_beside(&crew, pool, pass, &shares, &mut slots, beside, with);
    let ended = match shared {
        Ok(ended) => ended,
        Err(refusal) => return (pass, Err(refusal)),
    };
    match ended {
        Ok(()) => (pass, Ok(slots.join_all(alloc, q))),
        Err(refusal) => (pass, Ok(Err(refusal))),
    }
}
