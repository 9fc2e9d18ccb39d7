ghost use Rattle.std.specs.Prelude.{◌≡◌, ◌+◌, ◌<◌, ◌≤◌, ◌++◌, ◌∷◌, [], All, IfErr, vec_len, vec_capacity};
ghost use Rattle.std.specs.List.{AllByRecursion};
ghost use Rattle.fm_gate.specs.Needs.{IsOutside};
ghost use Rattle.fm_workers_crew.specs.Rounds.{CanLater, Finished, GatheredThen, IsSpare, tasks_of};
ghost use Rattle.fm_workers_crew.specs.Then.{CrewWentOn};

use crate::crew::{gather_crew, run_crew};
use crate::work::Work;
use crate::worker::Worker;
use fm_arena::Shared;
use fm_base::Refusal;
use fm_rule::{Pass, Pool};
use std::alloc::Global;
use std::sync::Wait;
use std::thread::Threads;

/// A crew's work that goes on: what the pass of the last task does once all others were gathered.
pub trait Then<T>: Work<T> {
    ghost use Rattle.std.specs.Prelude.{◌≡◌, List, None};
    ghost use Rattle.fm_base.specs.declared.caller.Caller.{Caller};
    ghost use Rattle.fm_base.specs.Calls.{Entry};
    ghost use Rattle.fm_base.specs.View.{Did};
    ghost use Rattle.fm_rule_facts.specs.Views.{View};
    ghost use Rattle.fm_rule_calls.specs.Kept.{Lasts};
    ghost use Rattle.fm_rule_calls.specs.Told.{view_of_pass};

    /// Whether it can go on by who has seen so much.
    ghost can_go_on: { Self → View → Type 0 };

    /// How it changes by the pass's entries, where the tasks ended like these.
    ghost goes_on: { Self → Self → List T → Caller → List Entry → Type 0 };

    /// Goes on, as the pass that the memory has. These are all tasks, in their order, as they ended: by them it sees whether
    /// there is anything left to do.
    fn go_on(&mut self, alloc: Global, memory: &mut Shared, tasks: &[T])
        requires outside { memory.old.inside ≡ None }
        requires can { can_go_on self.old memory.old }
        ensures outside { memory.new.inside ≡ None }
        ensures did { Did (view_of_pass memory.old) (view_of_pass memory.new)
            (goes_on self.old self.new tasks.now memory.old.caller) };

    /// It can go on later too.
    ghost still_can: { (w : Self) (p q : View) → Lasts p q → can_go_on w p → can_go_on w q };
}

/// Lets the worker that is left see what the pass has seen and go on, and gathers it.
fn finish<T, W: Then<T>>(
    alloc: Global,
    pool: &Pool,
    pass: &mut Pass,
    worker: Worker<T>,
    tasks: &mut Vec<T>,
    work: &mut W,
)
    requires outside { IsOutside pool.now pass.old }
    requires spare { IsSpare pool.now worker.memory }
    requires can { CanLater (W.can_go_on work.old) pass.old }
    requires room { vec_len tasks.old < vec_capacity tasks.old }
    ensures finished { Finished (W.goes_on work.old work.new tasks.new.items) pass.old worker.entry.memory pass.new }
    ensures outside { IsOutside pool.now pass.new }
    ensures tasks { tasks.new.items ≡ tasks.old.items ++ worker.entry.task ∷ [] }
{
    let Worker {
        mut memory,
        task,
        gap: _,
    } = worker;
    tasks.push_reserved(task);
    memory.meet(pool.note(pass));
    work.go_on(alloc, &mut memory, tasks.as_slice());
    pool.gather(pass, memory.into_pass());
}

/// Gathers all, and gives their tasks back, as `gather_crew`. Before the last one is gathered it goes on.
fn gather_then<T, W: Then<T>>(
    alloc: Global,
    pool: &Pool,
    pass: &mut Pass,
    mut crew: Vec<Worker<T>>,
    tasks: &mut Vec<T>,
    work: &mut W,
)
    requires outside { IsOutside pool.now pass.old }
    requires spare { AllByRecursion (λ w. IsSpare pool.now w.memory) crew.items }
    requires can { CanLater (W.can_go_on work.old) pass.old }
    requires room { vec_len tasks.old + vec_len crew ≤ vec_capacity tasks.old }
    ensures gathered { GatheredThen (W.goes_on work.old work.new tasks.new.items) pass.old pass.new crew.entry.items }
    ensures outside { IsOutside pool.now pass.new }
    ensures tasks { tasks.new.items ≡ tasks.old.items ++ tasks_of crew.entry.items }
    ensures nobody { crew.entry.items ≡ [] → work.new ≡ work.old }
{
    if crew.is_empty() {
        crew.destroy_empty();
        return;
    }
    // The first was drawn for the last task.
    let worker = crew.remove(0);
    gather_crew(pool, pass, crew, tasks);
    finish(alloc, pool, pass, worker, tasks, work);
}

/// As `work_crew`; but the pass of the last task isn't gathered with the others. Once they were, it sees what all of them
/// did, and goes on, in the caller's thread. Then it is gathered too. Where there is no task nobody goes on.
///
/// Refused, in this order: `Memory`, `NoPass`. Then no task was begun, and nobody went on.
pub fn work_crew_then<R: Threads + Wait + Sync, T: Send, W: Then<T>>(
    rt: &R,
    alloc: Global,
    pool: &Pool,
    pass: &mut Pass,
    work: &mut W,
    tasks: &mut Vec<T>,
) -> Result<(), Refusal>
    requires outside { IsOutside pool.now pass.old }
    requires can { All (W.can work.old pass.old) tasks.old.items }
    requires can_go_on { W.can_go_on work.old pass.old }
    ensures went_on { CrewWentOn (W.does work.old) (W.goes_on work.old work.new tasks.new.items)
        pass.old pass.new tasks.old.items tasks.new.items result }
    ensures untouched { IfErr result (λ _. work.new ≡ work.old) }
    ensures nobody { tasks.old.items ≡ [] → work.new ≡ work.old }
    ensures outside { IsOutside pool.now pass.new }
{
    let crew = match run_crew(rt, alloc, pool, pass, work, tasks) {
        Ok(crew) => crew,
        Err(refusal) => return Err(refusal),
    };
    gather_then(alloc, pool, pass, crew, tasks, work);
    pool.whole(pass);
    Ok(())
}
