//! Slots that are used again and again by some threads, while others read in an arena that is closed among them.
ghost use Rattle.fm_bench.specs.Ready.{CanRead, IsFree};

use crate::count::{Count, NOTHING};
use crate::crews::{Job, Plan, Worker, run_crew};
use crate::gates::{Act, visit};
use crate::pools::{AGAIN, Pattern, fill, filled, given, made};
use fm_base::{ArenaId, Refusal};
use fm_close::close;
use fm_gate::is_alive;
use fm_rule::{Pass, Pool};
use fm_words::Shape;
use std::alloc::Global;
use std::sync::Wait;
use std::thread::Threads;

/// The words of an arena, all of which it gives.
const WORDS: u64 = 8;

/// How often a writer uses a slot in a round.
const TURNS: u64 = 500;

/// How many words a reader reads in a round, before one of them closes the arena and after that.
const READS: u64 = 5_000;

/// So many rounds, in each of which every other thread uses slots, while the others read in an arena that one of them
/// closes in the midst. Answers what came of all reads, and of all uses. There are 2 to 16 threads.
pub fn reuse<R: Threads + Wait + Sync>(
    rt: &R,
    alloc: Global,
    rounds: u64,
    threads: u32,
) -> Result<(Count, Count), Refusal> {
    if threads < 2 || threads > 16 {
        return Err(Refusal::NoPass);
    }
    let shape = Shape {
        passes: threads + 1,
        slots: 2,
        pages: 2,
        ..AGAIN
    };
    let plan = Plan {
        workers: u64::from(threads),
        between: 0,
        job: Job::Reuse,
    };
    let (pool, mut pass) = made(alloc, shape)?;
    let (mut reads, mut uses) = (NOTHING, NOTHING);
    for _ in 0..rounds {
        let a = filled(rt, &pool, &mut pass, WORDS, Pattern::OfArena)?;
        let came = run_crew(rt, alloc, &pool, &mut pass, a, plan)?;
        reads = reads.and(came.visits);
        uses = uses.and(came.uses);
    }
    Ok((reads, uses))
}

/// Reads words of the arena, also when it is closed. Each is as the arena's opener put it.
pub fn read_often(pool: &Pool, worker: &mut Worker, a: ArenaId)
    requires { CanRead pool.now worker.old.pass 64 a }
    ensures { CanRead pool.now worker.new.pass 64 a }
{
    for turn in 0..READS {
        let found = visit(pool, &mut worker.pass, a, turn % WORDS, Act::Load);
        worker
            .visits
            .note(found.map(|word| word == Pattern::OfArena.word_of(a, 0)));
    }
}

/// Uses slots one after another.
pub fn use_often<R: Wait>(rt: &R, pool: &Pool, worker: &mut Worker)
    requires { IsFree pool.now worker.old.pass }
    ensures { IsFree pool.now worker.new.pass }
{
    for _ in 0..TURNS {
        let fine = is_used(rt, pool, &mut worker.pass);
        worker.uses.note(fine);
    }
}

/// Whether an arena of its own was empty at first, kept what was put into it, and was over once it was closed.
fn is_used<R: Wait>(rt: &R, pool: &Pool, pass: &mut Pass) -> Result<bool, Refusal>
    requires { IsFree pool.now pass.old }
    ensures { IsFree pool.now pass.new }
{
    let a = given(rt, pool, pass, WORDS * 8)?;
    let empty = fill(pool, pass, a, WORDS, Pattern::OfArena)?;
    let kept = visit(pool, pass, a, WORDS - 1, Act::Load)? == Pattern::OfArena.word_of(a, 0);
    close(rt, pool, pass, a)?;
    let alive = is_alive(pool, pass, a)?;
    Ok(empty && kept && !alive)
}
