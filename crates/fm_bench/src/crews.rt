//! Threads that visit one arena at once, each with a pass of its own.
ghost use Rattle.std.specs.Prelude.{◌≡◌, All, IfOk};
ghost use Rattle.fm_bench.specs.Ready.{CanRead, FreeAfter, IsFree};

use crate::count::{Count, NOTHING};
use crate::gates::{Act, visit};
use crate::pools::{ONE, drawn, given, made, take_in};
use crate::reuse::{read_often, use_often};
use fm_base::{ArenaId, Refusal};
use fm_close::close;
use fm_gate::a_crew_stands;
use fm_rule::{Pass, Pool};
use fm_words::Shape;
use std::alloc::Global;
use std::sync::Wait;
use std::thread;
use std::thread::Threads;

/// 64 passes, and two slots.
pub const CROWD: Shape = Shape {
    passes: 64,
    slots: 2,
    pages: 2,
    ..ONE
};

/// A worker with its pass, what came of its calls, and the last word that it found.
#[derive(Drop)]
pub struct Worker {
    pub pass: Pass,
    /// Its visits of the arena that it was hired for.
    pub visits: Count,
    /// Its uses of arenas of its own.
    pub uses: Count,
    pub last: u64,
    /// Workers stand in one list, and each visit stores in its worker: 128 bytes of nothing keep the next one off its
    /// cache lines.
    gap: [u64; 16],
}

impl Worker {
    /// It came in once more, and found this word.
    #[inline(always)]
    fn note(&mut self, found: u64)
        ensures { self.new.pass ≡ self.old.pass }
    {
        self.last = found;
        self.visits.fine = self.visits.fine.wrapping_add(1);
    }
}

/// What the workers of a crew do with the arena.
#[derive(Clone, Copy)]
pub enum Job {
    /// Each loads its first word so often.
    Load(u64),
    /// Each adds 1 to it so often, or until the arena is closed.
    Add(u64),
    /// The same, where the first worker closes the arena before it adds.
    CloseAndAdd(u64),
    /// Each has recruits add so often, twice; the first worker closes the arena between.
    Recruit(u64),
    /// Every other worker uses slots for arenas of its own; the others read, and the first of these closes the arena in
    /// the midst.
    Reuse,
}

/// How many workers a crew has, how many passes are drawn behind each that nobody uses, and what it does.
#[derive(Clone, Copy)]
pub struct Plan {
    pub workers: u64,
    pub between: u64,
    pub job: Job,
}

/// What came of a crew.
#[derive(Clone, Copy)]
pub struct Outcome {
    pub visits: Count,
    pub uses: Count,
    /// The word after all additions, by what the workers found: 0 where none came in.
    pub next: u64,
    /// Whether the pass has every caller that was drawn, once it has gathered all.
    pub whole: bool,
}

/// Draws the other pass of a pool of two so often, and gathers it each time. Answers how often.
pub fn draws<R: Wait>(rt: &R, alloc: Global, count: u64) -> Result<u64, Refusal> {
    let (pool, mut pass) = made(alloc, Shape { passes: 2, ..CROWD })?;
    for turn in 0..count {
        let Ok(other) = drawn(rt, &pool, &mut pass) else {
            return Ok(turn);
        };
        take_in(&pool, &mut pass, other);
    }
    Ok(count)
}

/// Threads visit an arena at once, so often each. Their marks share no cache line: those of numbers in a row lie 8 words
/// apart, and where 7 passes are drawn between two workers, theirs lie 64 words apart. Answers how often they came in.
pub fn crowd<R: Threads + Wait + Sync>(
    rt: &R,
    alloc: Global,
    count: u64,
    threads: u64,
    between: u64,
) -> Result<u64, Refusal> {
    let plan = Plan {
        workers: threads,
        between,
        job: Job::Load(count),
    };
    let (pool, mut pass) = made(alloc, CROWD)?;
    let a = given(rt, &pool, &mut pass, 64)?;
    Ok(run_crew(rt, alloc, &pool, &mut pass, a, plan)?.visits.fine)
}

/// A crew is drawn, each of its workers does the job in a thread of its own, and all are gathered.
pub fn run_crew<R: Threads + Wait + Sync>(
    rt: &R,
    alloc: Global,
    pool: &Pool,
    pass: &mut Pass,
    a: ArenaId,
    plan: Plan,
) -> Result<Outcome, Refusal>
    requires { CanRead pool.now pass.old 64 a }
    ensures { FreeAfter pool.now pass.old pass.new }
{
    let mut crew = hire(rt, alloc, pool, pass, plan)?;
    thread::for_each_mut(
        rt,
        crew.as_mut_slice(),
        16,
        &|place: usize, worker: &mut Worker|
            requires { CanRead pool.now worker.now.pass 64 a }
            ensures { IsFree pool.entry.now worker.exit.now.pass }
        { work(rt, pool, worker, a, plan.job, place) },
    );
    Ok(gather_all(pool, pass, crew))
}

/// The workers of a crew.
fn hire<R: Wait>(
    rt: &R,
    alloc: Global,
    pool: &Pool,
    pass: &mut Pass,
    plan: Plan,
) -> Result<Vec<Worker>, Refusal>
    requires { IsFree pool.now pass.old }
    ensures free { FreeAfter pool.now pass.old pass.new }
    ensures crew { IfOk result (λ crew. All (λ w. FreeAfter pool.now pass.old w.pass) crew.items) }
{
    let mut crew: Vec<Worker> = Vec::new(alloc);
    for _ in 0..plan.workers {
        let worker = Worker {
            pass: drawn(rt, pool, pass)?,
            visits: NOTHING,
            uses: NOTHING,
            last: 0,
            gap: [0; 16],
        };
        for _ in 0..plan.between {
            let _ = drawn(rt, pool, pass)?;
        }
        if crew.push(worker).is_err() {
            return Err(Refusal::Memory);
        }
    }
    Ok(crew)
}

/// The worker in this place does the job.
fn work<R: Wait>(rt: &R, pool: &Pool, worker: &mut Worker, a: ArenaId, job: Job, place: usize)
    requires { CanRead pool.now worker.old.pass 64 a }
    ensures { IsFree pool.now worker.new.pass }
{
    match job {
        Job::Load(times) => act_often(pool, worker, a, Act::Load, times),
        Job::Add(times) => act_often(pool, worker, a, Act::Add, times),
        Job::CloseAndAdd(times) => {
            close_if(rt, pool, worker, a, place == 0);
            act_often(pool, worker, a, Act::Add, times);
        }
        Job::Recruit(times) => {
            recruit_often(rt, pool, worker, a, times);
            close_if(rt, pool, worker, a, place == 0);
            recruit_often(rt, pool, worker, a, times);
        }
        Job::Reuse if place % 2 == 0 => use_often(rt, pool, worker),
        Job::Reuse => {
            read_often(pool, worker, a);
            close_if(rt, pool, worker, a, place == 1);
            read_often(pool, worker, a);
        }
    }
}

/// Closes the arena, if it is to, which was alive.
fn close_if<R: Wait>(rt: &R, pool: &Pool, worker: &mut Worker, a: ArenaId, it_is: bool)
    requires { CanRead pool.now worker.old.pass 64 a }
    ensures { CanRead pool.now worker.new.pass 64 a }
{
    if it_is && close(rt, pool, &mut worker.pass, a).is_err() {
        worker.uses.note(Ok(false));
    }
}

/// Acts on the first word so often, each time in a visit of its own, or until the arena is closed.
#[inline(always)]
fn act_often(pool: &Pool, worker: &mut Worker, a: ArenaId, act: Act, times: u64)
    requires { CanRead pool.now worker.old.pass 64 a }
    ensures { CanRead pool.now worker.new.pass 64 a }
{
    for _ in 0..times {
        match visit(pool, &mut worker.pass, a, 0, act) {
            Ok(found) => worker.note(found),
            Err(_) => return,
        }
    }
}

/// Recruits add so often. Where the arena is closed they are refused, and are drawn and gathered all the same.
fn recruit_often<R: Wait>(rt: &R, pool: &Pool, worker: &mut Worker, a: ArenaId, times: u64)
    requires { CanRead pool.now worker.old.pass 64 a }
    ensures { CanRead pool.now worker.new.pass 64 a }
{
    for _ in 0..times {
        if let Ok(found) = recruit_once(rt, pool, &mut worker.pass, a) {
            worker.note(found);
        }
    }
}

/// A pass is drawn, adds 1 to the arena's first word in a visit of its own, and is gathered again.
fn recruit_once<R: Wait>(rt: &R, pool: &Pool, pass: &mut Pass, a: ArenaId) -> Result<u64, Refusal>
    requires { CanRead pool.now pass.old 64 a }
    ensures { FreeAfter pool.now pass.old pass.new }
{
    let mut recruit = drawn(rt, pool, pass)?;
    let found = visit(pool, &mut recruit, a, 0, Act::Add);
    take_in(pool, pass, recruit);
    found
}

/// The pass gathers all workers.
fn gather_all(pool: &Pool, pass: &mut Pass, crew: Vec<Worker>) -> Outcome
    requires free { IsFree pool.now pass.old }
    requires crew { All (λ w. IsFree pool.now w.pass) crew.items }
    ensures { FreeAfter pool.now pass.old pass.new }
{
    let mut came = Outcome {
        visits: NOTHING,
        uses: NOTHING,
        next: 0,
        whole: false,
    };
    let mut left = crew;
    while let Some(worker) = left.pop() {
        came.visits = came.visits.and(worker.visits);
        came.uses = came.uses.and(worker.uses);
        if worker.visits.fine > 0 {
            came.next = came.next.max(worker.last.wrapping_add(1));
        }
        take_in(pool, pass, worker.pass);
    }
    a_crew_stands();
    came.whole = pool.whole(pass);
    came
}
