ghost use Rattle.std.specs.Prelude.{◌≡◌, None};
ghost use Rattle.fm_base.specs.View.{Did};
ghost use Rattle.fm_group.specs.Asked.{IsReady};
ghost use Rattle.fm_group_crew.specs.Ends.{Concludes};

use crate::counting::count_share;
use crate::ending::first_end;
use crate::share::CountShare;
use fm_arena::Shared;
use fm_base::{Memory, Refusal};
use fm_group::{CountTable, Groups};
use fm_io::Gate;
use fm_workers_crew::{Then, Work};
use std::alloc::Global;
use std::sync::Wait;

/// What a crew does: each pass counts the values of its share, and behind all of them the last one reads the table.
#[derive(Drop)]
pub(crate) struct Grouping<'a, R, G> {
    pub(crate) rt: &'a R,
    pub(crate) gate: &'a G,
    pub(crate) table: &'a CountTable,
    /// What it came to, once the last pass has gone on.
    pub(crate) groups: Result<Groups, Refusal>,
}

/// A share is one call of its worker at the gate.
impl<'a, R: Wait + Sync, G: Gate> Work<CountShare> for Grouping<'a, R, G> {
    ghost use Rattle.fm_workers_crew.specs.Crew.{by_caller};
    ghost use Rattle.fm_group_crew.specs.Tasks.{CanCountTask, CountsTask, can_count_later};

    ghost can = { λ w. CanCountTask w.table.now };

    ghost does = { λ w. by_caller (CountsTask w.table.now) };

    fn work(&self, _alloc: Global, memory: &mut Shared, share: &mut CountShare) {
        self.gate.before(self.rt, share.number, 0);
        share.end = count_share(memory, self.table, share.from, share.to);
        self.gate.after(share.number, 0);
    }

    ghost stays = { λ w p q t same. can_count_later w.table.now p q t };
}

/// Where a share was refused nothing is read: some values weren't counted.
impl<'a, R: Wait + Sync, G: Gate> Then<CountShare> for Grouping<'a, R, G> {
    ghost use Rattle.fm_group_crew.specs.{Ends.{concluding}, Tasks.{CanUse, can_use_later}};

    ghost can_go_on = { λ w. CanUse w.table.now };

    ghost goes_on = { λ w u shares. concluding w.table.now shares u.groups };

    fn go_on(&mut self, alloc: Global, memory: &mut Shared, shares: &[CountShare]) {
        self.groups = conclude(alloc, memory, self.table, first_end(shares));
    }

    ghost still_can = { λ w. can_use_later w.table.now };
}

/// Reads the table, where no share was refused.
fn conclude<M: Memory>(
    alloc: Global,
    m: &mut M,
    table: &CountTable,
    end: Result<(), Refusal>,
) -> Result<Groups, Refusal>
    requires { IsReady (M.view m.old) table.now }
    ensures did { Did (M.view m.old) (M.view m.new) (Concludes table.now end result (M.view m.old).caller) }
    ensures outside { (M.view m.new).inside ≡ None }
{
    match end {
        Ok(()) => table.read_groups(alloc, m),
        Err(refusal) => Err(refusal),
    }
}
