ghost use Rattle.fm_words.specs.Shapes.{IsValid};

use crate::crews::{CROWD, Job, Plan, run_crew};
use crate::gates::{Act, visit};
use crate::pools::{given, made};
use fm_base::Refusal;
use fm_gate::is_alive;
use fm_words::Shape;
use std::alloc::Global;
use std::sync::Wait;
use std::thread::Threads;

/// Five passes, of which four are drawn.
const FIVE: Shape = Shape { passes: 5, ..CROWD };

/// Nine, of which four are drawn, and four more by these.
const NINE: Shape = Shape { passes: 9, ..CROWD };

/// The threads of a round, each of which has a pass.
const WORKERS: u64 = 4;

/// How often a worker adds.
const TIMES: u64 = 10_000;

/// What is tried in a round.
#[derive(Clone, Copy)]
pub enum Trial {
    /// Workers add to one word, and others add while one of them closes the arena.
    Adds,
    /// Each worker draws a pass for each addition and gathers it again, while one of them closes the arena half-way.
    Recruits,
}

/// So many rounds. Answers how many came out as they should.
pub fn stress<R: Threads + Wait + Sync>(
    rt: &R,
    alloc: Global,
    rounds: u64,
    trial: Trial,
) -> Result<u64, Refusal> {
    let mut fine: u64 = 0;
    for _ in 0..rounds {
        let came = match trial {
            Trial::Adds => {
                let adding = round(rt, alloc, FIVE, Job::Add(TIMES))?;
                let closing = round(rt, alloc, FIVE, Job::CloseAndAdd(TIMES))?;
                adding && closing
            }
            Trial::Recruits => round(rt, alloc, NINE, Job::Recruit(TIMES / 2))?,
        };
        if came {
            fine = fine.wrapping_add(1);
        }
    }
    Ok(fine)
}

/// Whether the pass is whole after the job, and the word shows what all workers added; or where one of them closed the
/// arena, whether they came in as often as their last words say, and nobody does any more.
fn round<R: Threads + Wait + Sync>(
    rt: &R,
    alloc: Global,
    shape: Shape,
    job: Job,
) -> Result<bool, Refusal>
    requires { IsValid shape }
{
    let plan = Plan {
        workers: WORKERS,
        between: 0,
        job,
    };
    let (pool, mut pass) = made(alloc, shape)?;
    let a = given(rt, &pool, &mut pass, 64)?;
    let came = run_crew(rt, alloc, &pool, &mut pass, a, plan)?;
    let found = visit(&pool, &mut pass, a, 0, Act::Load);
    let alive = is_alive(&pool, &mut pass, a)?;
    let added = came.visits.fine;
    let right = match job {
        Job::Add(_) => added == WORKERS * TIMES && found == Ok(added),
        _ => !alive && added == came.next && came.uses.wrong == 0,
    };
    Ok(came.whole && right)
}
