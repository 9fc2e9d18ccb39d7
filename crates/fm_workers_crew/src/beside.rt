ghost use Rattle.std.specs.Prelude.{◌≡◌, ◌<◌, ℕ, None, All, IfErr, length, slice_index_or};
ghost use Rattle.fm_base.specs.View.{Did};
ghost use Rattle.fm_rule_calls.specs.Told.{view_of_pass};
ghost use Rattle.fm_arena.specs.Shares.{CanShare};
ghost use Rattle.fm_gate.specs.Needs.{IsOutside};
ghost use Rattle.fm_workers_crew.specs.Beside.{WorksBeside};
ghost use Rattle.fm_workers_crew.specs.Rounds.{IsWorked};

use crate::crew::{call_all, gather_crew, work_all};
use crate::work::Work;
use crate::worker::Worker;
use fm_arena::Shared;
use fm_base::Refusal;
use fm_rule::{Pass, Pool};
use std::alloc::Global;
use std::sync::Wait;
use std::thread::{Threads, join_mut};

/// What the pass that drew a crew does, with a value of the caller's, while the crew is at work.
pub trait Beside<S> {
    ghost use Rattle.std.specs.Prelude.{◌≡◌, List, None};
    ghost use Rattle.fm_base.specs.declared.caller.Caller.{Caller};
    ghost use Rattle.fm_base.specs.Calls.{Entry};
    ghost use Rattle.fm_base.specs.View.{Did};
    ghost use Rattle.fm_rule_calls.specs.Kept.{Lasts};
    ghost use Rattle.fm_rule_calls.specs.Told.{view_of_pass};
    ghost use Rattle.fm_rule_facts.specs.Views.{View};
    ghost use Rattle.fm_arena.specs.Lasting.{SamePool};

    /// Whether it can be done by who has seen so much.
    ghost can: { Self → View → S → Type 0 };

    /// How it and the value change by the pass's entries.
    ghost does: { Self → Self → S → S → Caller → List Entry → Type 0 };

    /// Does it, as the pass that the memory has.
    fn act<R: Wait>(&mut self, rt: &R, with: &mut S, memory: &mut Shared)
        requires outside { memory.old.inside ≡ None }
        requires can { can self.old memory.old with.old }
        ensures outside { memory.new.inside ≡ None }
        ensures did { Did (view_of_pass memory.old) (view_of_pass memory.new)
            (does self.old self.new with.old with.new memory.old.caller) };

    /// It can be done later too.
    ghost stays: { (b : Self) (p q : View) (s : S) → SamePool p q → Lasts p q → can b p s → can b q s };
}

/// The work of all, side by side, and what is done beside it.
pub(crate) fn work_beside<R: Threads + Wait + Sync, T: Send, W: Work<T>, S, B: Beside<S>>(
    rt: &R,
    alloc: Global,
    work: &W,
    crew: &mut [Worker<T>],
    memory: &mut Shared,
    beside: &mut B,
    with: &mut S,
)
    requires ready { All (λ w. (w.memory.inside ≡ None) × W.can work.now w.memory w.task) crew.old }
    requires outside { memory.old.inside ≡ None }
    requires can { B.can beside.old memory.old with.old }
    ensures len { length crew.new ≡ length crew.old }
    ensures worked { (i : ℕ) (d : _) → i < length crew.old
        → IsWorked (W.does work.now) (slice_index_or crew.old i d) (slice_index_or crew.new i d) }
    ensures still_outside { memory.new.inside ≡ None }
    ensures did { Did (view_of_pass memory.old) (view_of_pass memory.new)
        (B.does beside.old beside.new with.old with.new memory.old.caller) }
{
    join_mut(
        rt,
        &mut ||
            requires { All (λ w. (w.memory.inside ≡ None) × W.can work.now w.memory w.task) crew.now }
        { work_all(rt, alloc, work, crew) },
        &mut || beside.act(rt, with, memory),
    );
}

/// As `work_crew`, and the pass does something of its own while the crew is at work, in the caller's thread. Where no
/// thread can be started, that comes first.
///
/// Refused, in this order: `Memory`, `NoPass`. Then no task was begun, and nothing was done beside them.
pub fn work_crew_beside<R: Threads + Wait + Sync, T: Send, W: Work<T>, S, B: Beside<S>>(
    rt: &R,
    alloc: Global,
    pool: &Pool,
    mut pass: Pass,
    work: &W,
    tasks: &mut Vec<T>,
    beside: &mut B,
    with: &mut S,
) -> (Pass, Result<(), Refusal>)
    requires shares { CanShare pool.now pass }
    requires can { All (W.can work.now pass) tasks.old.items }
    requires beside { B.can beside.old pass with.old }
    ensures works { WorksBeside (W.does work.now) (B.does beside.old beside.new with.old with.new pass.caller)
        pass result.0 tasks.old.items tasks.new.items result.1 }
    ensures untouched { IfErr result.1 (λ _. (beside.new ≡ beside.old) × (with.new ≡ with.old)) }
    ensures outside { IsOutside pool.now result.0 }
{
    let mut crew = match call_all(rt, alloc, pool, &mut pass, tasks) {
        Ok(crew) => crew,
        Err(refusal) => return (pass, Err(refusal)),
    };
    // Any pass is sound, which its calls alone tell.
    let _caller = pass.caller();
    let mut memory = Shared::new(pool, pass);
    work_beside(
        rt,
        alloc,
        work,
        crew.as_mut_slice(),
        &mut memory,
        beside,
        with,
    );
    let mut pass = memory.into_pass();
    gather_crew(pool, &mut pass, crew, tasks);
    pool.whole(&mut pass);
    (pass, Ok(()))
}
