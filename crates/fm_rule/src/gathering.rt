//! Passes that are done are gathered into another, which then speaks for all of them.
ghost use Rattle.std.specs.Prelude.{◌≡◌, ◌<◌};
ghost use Rattle.fm_rule_facts.specs.Hands.{no_number, number_joined, number_of_joined};
ghost use Rattle.fm_rule.specs.Passes.{IsOf};
ghost use Rattle.fm_rule.specs.Draws.{CanGather, Gathers, GivesBack, Looked};

use crate::acts::load_as;
use crate::drawing::step_draw;
use crate::numbering::{step_give_number, step_raise_term};
use crate::pass::Pass;
use crate::pool::Pool;
use crate::seen::Seen;
use atomic_table::Join;
use fm_base::Caller;
use fm_rule_facts::Step;
use std::marker::Brand;

/// A pass is put to what another has met.
pub struct Gathered;

impl Join<Seen> for Gathered {
    ghost use Rattle.fm_rule_facts.specs.Splits.{gather, nothing_seen};

    ghost both = { gather };

    ghost spent = { nothing_seen };
}

impl Pool {
    /// After it the pass has seen what both had seen, and has the other's caller and all that were gathered into it. The
    /// other's number is free again, with its next term, unless it had its last one.
    pub fn gather(&self, pass: &mut Pass, other: Pass)
        requires pass { IsOf self.now pass.old }
        requires none { pass.old.number ≡ no_number }
        requires other { CanGather self.now other }
        ensures { Gathers pass.old other no_number pass.new }
    {
        let caller = other.caller();
        self.join_in(pass, other);
        if caller.term < u32::MAX {
            self.give_back(pass, caller);
        }
    }

    /// After it the pass has seen what both had seen, has the other's caller and all callers that were gathered into it, and
    /// the other's number in its hand, unless it had its last term.
    fn join_in(&self, pass: &mut Pass, other: Pass)
        requires pass { IsOf self.now pass.old }
        requires none { pass.old.number ≡ no_number }
        requires other { CanGather self.now other }
        ensures { Gathers pass.old other (number_of_joined other.caller) pass.new }
    {
        let Pass { seat, gathered, .. } = other;
        self.table
            .shared
            .join_seat::<Gathered>(&mut pass.seat, seat);
        let place = self.shape.front_place();
        load_as::<Brand>(self, &mut pass.seat, place, Step::Looks);
        pass.gathered = pass.gathered + 1 + gathered;
    }

    /// The next term of a gathered caller's number, and then its bit: it can be drawn again.
    fn give_back(&self, pass: &mut Pass, caller: Caller)
        requires pass { IsOf self.now pass.old }
        requires joined { pass.old.number ≡ number_joined caller }
        requires fits { caller.number < self.now.shape.passes }
        ensures { GivesBack pass.old pass.new }
    {
        step_raise_term(self, pass, caller);
        step_give_number(self, pass, caller.number);
    }

    /// Whether every drawn caller but its own is gathered into the pass. Then what it has seen is the whole history.
    pub fn whole(&self, pass: &mut Pass) -> bool
        requires of { IsOf self.now pass.old }
        requires none { pass.old.number ≡ no_number }
        ensures { Looked pass.old pass.new result }
    {
        let draws = step_draw(self, pass, 0);
        draws == pass.gathered + 1
    }
}
