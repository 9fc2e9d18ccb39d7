#![tactic(auto, using(crate::proofs::Passing::beside_ours))]

use fm_arena::Shared;
use fm_base::{ArenaId, Caller, Kind, Memory, OrRefused};
use std::marker::Model;
use std::sync::Wait;

/// The arenas of a pool as one of its passes uses them, while another closes an arena once: that which this one enters
/// next when `left` calls of `enter` have come, where it may be used by every caller.
#[derive(Drop)]
pub struct Interrupted<'a, H: Wait> {
    rt: &'a H,
    ours: Shared<'a>,
    theirs: Shared<'a>,
    left: u32,
}

impl<'a, H: Wait> Model for Interrupted<'a, H> {
    ghost use Rattle.fm_rule_facts.specs.Views.{View};
    ghost use Rattle.fm_memory_doubles.specs.Beside.{AreBeside};

    ghost Value = { View };

    ghost view = { λ m. m.ours };

    ghost invariant = { λ m. AreBeside m.ours m.theirs };
}

impl<'a, H: Wait> Interrupted<'a, H> {
    ghost use Rattle.std.specs.Prelude.{◌≡◌};
    ghost use Rattle.fm_base.specs.Learnt.{CanVisit};
    ghost use Rattle.fm_rule_calls.specs.Told.{view_of_pass};
    ghost use Rattle.fm_memory_doubles.specs.Beside.{AreBeside};

    /// Two passes of one pool.
    pub fn new(rt: &'a H, ours: Shared<'a>, theirs: Shared<'a>, left: u32) -> Interrupted<'a, H>
        requires { AreBeside ours theirs }
        ensures { result ≡ ours.entry }
    {
        Interrupted {
            rt,
            ours,
            theirs,
            left,
        }
    }

    /// What the other does before this one enters the arena.
    fn come_before(&mut self, id: ArenaId)
        requires { CanVisit (view_of_pass self.old) id }
        ensures { self.new ≡ self.old }
    {
        if self.left == 1 {
            let note = self.ours.note();
            self.theirs.meet(note);
            // Where the arena is confined to this pass nothing is closed.
            let _ = self.theirs.close(self.rt, id);
        }
        self.left = self.left.wrapping_sub(1);
    }
}

impl<'a, H: Wait> Memory for Interrupted<'a, H> {
    ghost use Rattle.std.specs.Prelude.{refl};
    ghost use Rattle.fm_rule_calls.specs.Told.{view_of_pass};
    ghost use Rattle.fm_arena.specs.Shares.{nature_of_shared};

    ghost nature = { nature_of_shared };

    ghost view = { view_of_pass };

    fn caller(&self) -> Caller {
        self.ours.caller()
    }

    fn enter(&mut self, id: ArenaId) -> OrRefused<()> {
        self.come_before(id);
        self.ours.enter(id)
    }

    fn load(&mut self, word: u64) -> u64 {
        self.ours.load(word)
    }

    fn store(&mut self, word: u64, v: u64) {
        self.ours.store(word, v);
    }

    fn swap_if(&mut self, word: u64, old: u64, new: u64) -> u64 {
        self.ours.swap_if(word, old, new)
    }

    fn add(&mut self, word: u64, n: u64) -> u64 {
        self.ours.add(word, n)
    }

    fn patch<R: Wait>(&mut self, rt: &R, word: u64, mask: u64, bits: u64) -> u64 {
        self.ours.patch(rt, word, mask, bits)
    }

    fn leave(&mut self) {
        self.ours.leave();
    }

    fn open_arena<R: Wait>(&mut self, rt: &R, kind: Kind) -> OrRefused<ArenaId> {
        self.ours.open_arena(rt, kind)
    }

    fn allocate<R: Wait>(&mut self, rt: &R, id: ArenaId, size: u64, align: u64) -> OrRefused<u64> {
        self.ours.allocate(rt, id, size, align)
    }

    fn close<R: Wait>(&mut self, rt: &R, id: ArenaId) -> OrRefused<()> {
        self.ours.close(rt, id)
    }

    ghost alone_is = { λ m. refl };
}
