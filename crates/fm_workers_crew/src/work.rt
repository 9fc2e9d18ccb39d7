use fm_arena::Shared;
use std::alloc::Global;

/// What each pass of a crew does: the same for all of them, each at a task of its own.
pub trait Work<T>: Sync {
    ghost use Rattle.std.specs.Prelude.{◌≡◌, List, None};
    ghost use Rattle.fm_base.specs.Calls.{Entry};
    ghost use Rattle.fm_base.specs.View.{Did};
    ghost use Rattle.fm_rule_facts.specs.Views.{View};
    ghost use Rattle.fm_rule_calls.specs.Kept.{Lasts};
    ghost use Rattle.fm_rule_calls.specs.Told.{view_of_pass};
    ghost use Rattle.fm_arena.specs.Lasting.{SamePool};

    /// Whether the work can be done at a task by who has seen so much.
    ghost can: { Self → View → T → Type 0 };

    /// How a task changes by the entries of a pass, which stands like this in the end.
    ghost does: { Self → View → T → T → List Entry → Type 0 };

    /// Does it, as the pass that the memory has.
    fn work(&self, alloc: Global, memory: &mut Shared, task: &mut T)
        requires outside { memory.old.inside ≡ None }
        requires can { can self.now memory.old task.old }
        ensures outside { memory.new.inside ≡ None }
        ensures did { Did (view_of_pass memory.old) (view_of_pass memory.new)
            (does self.now memory.new task.old task.new) };

    /// It can be done later too, by any pass of the pool.
    ghost stays: { (w : Self) (p q : View) (t : T) → SamePool p q → Lasts p q → can w p t → can w q t };
}
