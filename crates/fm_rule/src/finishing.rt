//! A pool is finished once one pass speaks for all: its words stay where they lie, beside its history.
ghost use Rattle.std.specs.Prelude.{◌≡◌, IfErr, IfOk, IsOk};
ghost use Rattle.std.specs.Mem.Slots.{slots_len, IsFull};
ghost use Rattle.fm_base.specs.declared.refusal.Refusal.TheVariants.{Memory};
ghost use Rattle.fm_rule.specs.Finishing.{CanFinish, Finishes};

use crate::notes::Note;
use crate::pass::Pass;
use crate::pool::Pool;
use atomic_table::Closed;
use fm_base::Refusal;
use fm_words::Shape;
use std::alloc::Global;
use std::marker::Model;

/// A pool that no pass uses any more: its shape, its whole history, and its words, which show it.
pub struct Finished {
    pub(crate) shape: Shape,
    pub(crate) note: Note,
    pub(crate) table: Closed<(), Global>,
    ghost full: { IsFull table.words },
    ghost slotless: { slots_len table.slots ≡ 0 },
}

impl Drop for Finished {
    fn drop(self) {
        let Self {
            shape: _,
            note,
            table,
        } = self;
        drop(note);
        table.free();
    }
}

impl Model for Finished {
    ghost use Rattle.std.specs.Mem.Slots.{slots_items};
    ghost use Rattle.fm_rule.specs.Finishing.{FinishedView, IsFinished};

    ghost Value = { FinishedView };

    ghost view = { λ f. record { shape = f.shape; history = f.note.seen; words = slots_items f.table.words } };

    ghost invariant = { λ f. IsFinished (record { shape = f.shape; history = f.note.seen; words = slots_items f.table.words }) };
}

impl Pool {
    /// Takes the pool apart. What the pass has seen is all that was done with it.
    ///
    /// It takes no memory, and is never refused.
    pub fn finish(self, alloc: Global, mut pass: Pass) -> Result<Finished, Refusal>
        requires { CanFinish self pass }
        ensures finishes { IfOk result (λ f. Finishes self pass f) }
        ensures never_refused { IsOk result }
        ensures memory { IfErr result (λ e. e ≡ Memory) }
    {
        let note = self.note(&mut pass);
        let Pool { table, shape } = self;
        let Pass { seat, .. } = pass;
        let closed = table.close_with(seat);
        Ok(Finished {
            shape,
            note,
            table: closed,
        })
    }
}
