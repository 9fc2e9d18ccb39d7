ghost use Rattle.std.specs.Prelude.{◌≡◌, ◌+◌, ◌<◌, ◌≤◌, ◌++◌, ℕ, [], None, All, IfErr, IfOk, length, reverse, slice_index_or, vec_len, vec_capacity};
ghost use Rattle.std.specs.List.{AllByRecursion};
ghost use Rattle.fm_gate.specs.Needs.{IsOutside};
ghost use Rattle.fm_workers_crew.specs.Crew.{CrewRefused, CrewWorked};
ghost use Rattle.fm_workers_crew.specs.Rounds.{AfterDraws, CalledAll, CalledUp, GatheredCrew, IsSpare, IsWorked, RanCrew, tasks_of};

use crate::work::Work;
use crate::worker::Worker;
use fm_arena::Shared;
use fm_base::Refusal;
use fm_rule::{Pass, Pool};
use std::alloc::Global;
use std::sync::Wait;
use std::thread;
use std::thread::Threads;

/// A pass for each task, the last task first. After a refusal the other tasks are left. Refused: `NoPass`.
fn draw_crew<'a, R: Wait, T>(
    rt: &R,
    pool: &'a Pool,
    pass: &mut Pass,
    tasks: &mut Vec<T>,
    crew: &mut Vec<Worker<'a, T>>,
) -> Result<(), Refusal>
    requires outside { IsOutside pool.now pass.old }
    requires empty { crew.old.items ≡ [] }
    requires room { vec_len tasks.old ≤ vec_capacity crew.old }
    ensures drew { AfterDraws pass.old pass.new tasks.old.items tasks.new.items crew.new.items result }
    ensures outside { IsOutside pool.now pass.new }
    ensures count { vec_len tasks.new + vec_len crew.new ≡ vec_len tasks.old }
{
    while let Some(task) = tasks.pop() {
        match pool.draw(rt, pass) {
            Ok(drawn) => crew.push_reserved(Worker {
                memory: Shared::new(pool, drawn),
                task,
                gap: [0; 16],
            }),
            Err(refusal) => {
                tasks.push_reserved(task);
                return Err(refusal);
            }
        }
    }
    Ok(())
}

/// A pass for each task, the last task first, where the last worker is the first drawn. After a refusal the other tasks
/// are left. Refused: `NoPass`.
pub(crate) fn call_up<'a, R: Wait, T>(
    rt: &R,
    pool: &'a Pool,
    pass: &mut Pass,
    tasks: &mut Vec<T>,
    crew: &mut Vec<Worker<'a, T>>,
) -> Result<(), Refusal>
    requires outside { IsOutside pool.now pass.old }
    requires empty { crew.old.items ≡ [] }
    requires room { vec_len tasks.old ≤ vec_capacity crew.old }
    ensures called { CalledUp pass.old pass.new tasks.old.items tasks.new.items crew.new.items result }
    ensures outside { IsOutside pool.now pass.new }
    ensures count { vec_len tasks.new + vec_len crew.new ≡ vec_len tasks.old }
{
    let drew = draw_crew(rt, pool, pass, tasks, crew);
    crew.as_mut_slice().reverse();
    drew
}

/// Moves all to the end of the other list, the last first.
pub(crate) fn turn<T>(from: &mut Vec<T>, to: &mut Vec<T>)
    requires room { vec_len to.old + vec_len from.old ≤ vec_capacity to.old }
    ensures moved { to.new.items ≡ to.old.items ++ reverse from.old.items }
    ensures none { from.new.items ≡ [] }
    ensures count { vec_len to.new ≡ vec_len to.old + vec_len from.old }
    ensures empty { vec_len from.new ≡ 0 }
    ensures same_room { vec_capacity from.new ≡ vec_capacity from.old }
{
    while let Some(task) = from.pop() {
        to.push_reserved(task);
    }
}

/// Gathers all, and gives their tasks back, in the order in which `draw_crew` took them.
pub(crate) fn gather_crew<T>(
    pool: &Pool,
    pass: &mut Pass,
    mut crew: Vec<Worker<T>>,
    tasks: &mut Vec<T>,
)
    requires outside { IsOutside pool.now pass.old }
    requires spare { AllByRecursion (λ w. IsSpare pool.now w.memory) crew.items }
    requires room { vec_len tasks.old + vec_len crew ≤ vec_capacity tasks.old }
    ensures gathered { GatheredCrew pass.old pass.new crew.entry.items }
    ensures outside { IsOutside pool.now pass.new }
    ensures tasks { tasks.new.items ≡ tasks.old.items ++ tasks_of crew.entry.items }
    ensures count { vec_len tasks.new ≡ vec_len tasks.old + vec_len crew.entry }
    ensures same_room { vec_capacity tasks.new ≡ vec_capacity tasks.old }
{
    while let Some(worker) = crew.pop() {
        let Worker {
            memory,
            task,
            gap: _,
        } = worker;
        pool.gather(pass, memory.into_pass());
        tasks.push_reserved(task);
    }
    crew.destroy_empty();
}

/// A pass for each task, for the first task first, which takes its task along. All memory is taken before the first draw.
/// After a refusal all are gathered again, and the tasks stand as before. Refused, in this order: `Memory`, `NoPass`.
pub(crate) fn call_all<'a, R: Wait, T>(
    rt: &R,
    alloc: Global,
    pool: &'a Pool,
    pass: &mut Pass,
    tasks: &mut Vec<T>,
) -> Result<Vec<Worker<'a, T>>, Refusal>
    requires { IsOutside pool.now pass.old }
    ensures called { IfOk result (λ crew. CalledAll pass.old pass.new tasks.old.items crew.items) }
    ensures refused { IfErr result (CrewRefused pass.old pass.new tasks.old.items tasks.new.items) }
    ensures outside { IsOutside pool.now pass.new }
    ensures none { IfOk result (λ _. tasks.new.items ≡ []) }
    ensures room { IfOk result (λ crew. vec_len tasks.new + vec_len crew ≤ vec_capacity tasks.new) }
{
    let Ok(mut left) = Vec::with_capacity(alloc, tasks.len()) else {
        return Err(Refusal::Memory);
    };
    let Ok(mut crew) = Vec::with_capacity(alloc, tasks.len()) else {
        left.destroy_empty();
        return Err(Refusal::Memory);
    };
    turn(tasks, &mut left);
    if let Err(refusal) = call_up(rt, pool, pass, &mut left, &mut crew) {
        gather_crew(pool, pass, crew, tasks);
        turn(&mut left, tasks);
        left.destroy_empty();
        pool.whole(pass);
        return Err(refusal);
    }
    left.destroy_empty();
    Ok(crew)
}

/// The work of all, side by side.
pub(crate) fn work_all<R: Threads + Sync, T: Send, W: Work<T>>(
    rt: &R,
    alloc: Global,
    work: &W,
    crew: &mut [Worker<T>],
)
    requires { All (λ w. (w.memory.inside ≡ None) × W.can work.now w.memory w.task) crew.old }
    ensures len { length crew.new ≡ length crew.old }
    ensures worked { (i : ℕ) (d : _) → i < length crew.old
        → IsWorked (W.does work.now) (slice_index_or crew.old i d) (slice_index_or crew.new i d) }
{
    // No crew has more than 16.
    thread::for_each_mut(
        rt,
        crew,
        16,
        &|_place: usize, worker: &mut Worker<T>|
            requires { (worker.now.memory.inside ≡ None) × W.can work.now worker.now.memory worker.now.task }
            ensures { IsWorked (W.does work.entry.now) worker.entry.now worker.exit.now }
        { work.work(alloc, &mut worker.memory, &mut worker.task) },
    );
}

/// A worker for each task, which is done with it. Refused as `call_all`.
pub(crate) fn run_crew<'a, R: Threads + Wait + Sync, T: Send, W: Work<T>>(
    rt: &R,
    alloc: Global,
    pool: &'a Pool,
    pass: &mut Pass,
    work: &W,
    tasks: &mut Vec<T>,
) -> Result<Vec<Worker<'a, T>>, Refusal>
    requires outside { IsOutside pool.now pass.old }
    requires can { All (W.can work.now pass.old) tasks.old.items }
    ensures ran { IfOk result (λ crew. RanCrew (W.does work.now) pool.now pass.old pass.new tasks.old.items crew.items) }
    ensures refused { IfErr result (CrewRefused pass.old pass.new tasks.old.items tasks.new.items) }
    ensures outside { IsOutside pool.now pass.new }
    ensures none { IfOk result (λ _. tasks.new.items ≡ []) }
    ensures room { IfOk result (λ crew. vec_len tasks.new + vec_len crew ≤ vec_capacity tasks.new) }
{
    let mut crew = match call_all(rt, alloc, pool, pass, tasks) {
        Ok(crew) => crew,
        Err(refusal) => return Err(refusal),
    };
    work_all(rt, alloc, work, crew.as_mut_slice());
    Ok(crew)
}

/// Draws a pass for each task, for the first task first, lets all of them work side by side, each at its task, and gathers
/// them all again, after a refusal too. All memory is taken before the first draw.
///
/// Refused, in this order: `Memory`, `NoPass`. Then no task was begun. Where no thread can be started, a worker's work is
/// done by the caller's own.
pub fn work_crew<R: Threads + Wait + Sync, T: Send, W: Work<T>>(
    rt: &R,
    alloc: Global,
    pool: &Pool,
    pass: &mut Pass,
    work: &W,
    tasks: &mut Vec<T>,
) -> Result<(), Refusal>
    requires outside { IsOutside pool.now pass.old }
    requires can { All (W.can work.now pass.old) tasks.old.items }
    ensures worked { CrewWorked (W.does work.now) pass.old pass.new tasks.old.items tasks.new.items result }
    ensures outside { IsOutside pool.now pass.new }
{
    let crew = match run_crew(rt, alloc, pool, pass, work, tasks) {
        Ok(crew) => crew,
        Err(refusal) => return Err(refusal),
    };
    gather_crew(pool, pass, crew, tasks);
    pool.whole(pass);
    Ok(())
}
