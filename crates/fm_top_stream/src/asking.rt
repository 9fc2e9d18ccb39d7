ghost use Rattle.std.specs.Prelude.{◌≡◌, ◌+◌, ◌%◌, ◌<◌, ◌≤◌, ◌⊎◌, length, IfErr, IfOk};
ghost use Rattle.std.specs.Result.{result_err};
ghost use Rattle.fm_top_load.specs.Reading.{GoesBy, ReadsFurther};
ghost use Rattle.fm_top_load.specs.Whole.{ByReads, TellsLoad};
ghost use Rattle.fm_top_pooled.specs.Stocked.{IsAlone, IsStockedOf};
ghost use Rattle.fm_top_stream.specs.Ahead.{AsksAhead, CanAskBeside, IsBoth, IsFollowed, IsNeither, WantsMemory, WasTried};
ghost use Rattle.fm_top_stream.specs.Steps.{Answers};

use crate::ahead::Ahead;
use crate::crew::Crew;
use crate::placed::Placed;
use crate::putting::Putting;
use fm_base::Refusal;
use fm_io::{Files, Gate};
use fm_records::Answer;
use fm_rule::Pass;
use fm_segment::Segment;
use fm_top_load::LoadFault;
use fm_top_pooled::unless_wanting;
use fm_workers::{query_beside, query_with};
use std::alloc::AllocError;
use std::sync::Wait;
use std::thread;
use std::thread::Threads;

/// What the crew's query answers over the segment. Where a number is wanting it waits.
pub(crate) fn ask<R: Threads + Wait + Sync, G: Gate>(
    rt: &R,
    crew: &Crew<'_, G>,
    pass: &mut Pass,
    s: &Segment,
) -> Result<Answer, AllocError>
    requires alone { IsAlone pass.old.gathered crew.now.pool.now pass.old }
    requires stocked { IsStockedOf pass.old.shape.passes crew.now.pool.now pass.old s.now }
    requires some { 0 < crew.now.threads }
    requires few { crew.now.threads ≤ 16 }
    requires even { s.now.size % crew.now.q.now.size ≡ 0 }
    ensures { IfOk result
        (Answers pass.old.shape.passes crew.now.pool.now pass.old pass.new s.now crew.now.q.now) }
{
    for _ in rt.forever() {
        match query_with(
            rt,
            crew.alloc,
            crew.pool,
            pass,
            crew.q,
            s,
            crew.threads,
            crew.gate,
        ) {
            Ok(answer) => return Ok(answer),
            Err(refusal) => wait_for_pass(refusal)?,
        }
    }
    unreachable!()
}

/// The same, while the first pass puts the next chunk into an arena of its own.
pub(crate) fn ask_beside<R: Threads + Wait + Sync, F: Files, G: Gate>(
    rt: &R,
    files: &mut F,
    crew: &Crew<'_, G>,
    mut pass: Pass,
    s: &Segment,
    mut putting: Putting<'_>,
) -> Result<Ahead, LoadFault>
    requires { CanAskBeside (F.view files.old).holds crew.now.threads crew.now.q.now crew.now.pool.now
        pass s.now putting }
    ensures asks { IfOk result
        (AsksAhead (F.view files.old).holds crew.now.pool.now crew.now.q.now pass s.now putting.entry) }
    ensures reads { ReadsFurther (F.view files.old).reads (F.view files.new).reads putting.entry.stretch.name.now
        putting.entry.stretch.limit
        (GoesBy putting.entry.portion.ended (putting.entry.stretch.at + length putting.entry.portion.bytes))
        (λ next. IfOk result (λ r. IsFollowed putting.entry.stretch.at r.next next)) }
    ensures tells { TellsLoad ByReads putting.entry.stretch.limit (F.view files.old) (F.view files.new)
        putting.entry.stretch.name.now (result_err result) }
{
    for _ in rt.forever() {
        let (back, asked) = query_beside(
            rt,
            crew.alloc,
            crew.pool,
            pass,
            crew.q,
            s,
            crew.threads,
            crew.gate,
            &mut putting,
            files,
        );
        match asked {
            Ok(answer) => return join_both(back, answer, putting),
            Err(refusal) => {
                let Ok(()) = wait_for_pass(refusal) else {
                    return Err(LoadFault::Memory);
                };
            }
        }
        pass = back;
    }
    unreachable!()
}

/// Lets others run, where a crew was refused for want of a number. Else it was for want of memory.
fn wait_for_pass(refusal: Refusal) -> Result<(), AllocError>
    requires { (refusal ≡ Refusal.NoPass) ⊎ (refusal ≡ Refusal.Memory) }
    ensures pass { IfOk result (λ _. refusal ≡ Refusal.NoPass) }
    ensures memory { IfErr result (λ _. refusal ≡ Refusal.Memory) }
{
    match refusal {
        Refusal::NoPass => {
            thread::yield_now();
            Ok(())
        }
        Refusal::Memory => Err(AllocError),
        // The arena is alive and shared, and the records are whole.
        _ => unreachable!(),
    }
}

/// What was answered, and what was put beside it. A read's fault goes before want of memory at the query.
fn join_both(
    pass: Pass,
    answer: Result<Answer, Refusal>,
    putting: Putting<'_>,
) -> Result<Ahead, LoadFault>
    requires tried { WasTried putting }
    requires wanting { WantsMemory answer putting }
    ensures both { IfOk result (IsBoth pass answer putting.entry) }
    ensures neither { IfErr result (IsNeither putting.entry) }
{
    let Putting {
        portion,
        arena,
        put,
        ..
    } = putting;
    let chunk = match put {
        Some(Ok(chunk)) => chunk,
        Some(Err(fault)) => return Err(fault),
        // The crew was drawn, so it was tried.
        None => unreachable!(),
    };
    // Nobody shut the segment's arena meanwhile.
    match unless_wanting(answer) {
        Ok(answer) => Ok(Ahead {
            pass,
            answer,
            portion,
            next: Some(Placed { arena, chunk }),
        }),
        Err(_) => Err(LoadFault::Memory),
    }
}
