//! What a pass has seen, as a note that another pass meets.
ghost use Rattle.std.specs.Prelude.{◌≡◌, []};
ghost use Rattle.fm_rule_facts.specs.Steps.{Stepped, none_noted};
ghost use Rattle.fm_rule.specs.Passes.{IsOf, IsNoteOf, GoesOnFrom};

use crate::acts::load_as;
use crate::pass::Pass;
use crate::pool::Pool;
use crate::seen::Seen;
use atomic_table::{Join, Seat, Split};
use fm_rule_facts::Step;
use std::marker::{Brand, Model};

/// What a pass had seen.
#[derive(Drop)]
pub struct Note {
    pub(crate) seat: Seat<(), Seen>,
}

impl Model for Note {
    ghost use Rattle.std.specs.Prelude.{◌≡◌, []};
    ghost use Rattle.fm_rule_facts.specs.Splits.{IsBare};
    ghost use Rattle.fm_rule.specs.Views.{NoteView, numbers_of};

    ghost Value = { NoteView };

    ghost view = { λ n. record { home = numbers_of n.seat.table_id; seen = n.seat.me.0.seen } };

    ghost invariant = { λ n. IsBare n.seat.me.0 × (n.seat.me.1 ≡ []) };
}

/// A note is cut from a pass.
pub struct Noted;

impl Split<Seen> for Noted {
    ghost use Rattle.fm_rule_facts.specs.Splits.{note};

    ghost left = { λ v. v };

    ghost right = { note };
}

/// A note is put to what a pass has met.
pub struct Met;

impl Join<Seen> for Met {
    ghost use Rattle.fm_rule_facts.specs.Splits.{met, nothing_seen};

    ghost both = { met };

    ghost spent = { nothing_seen };
}

impl Pool {
    /// What the pass has seen, to be met by another pass.
    pub fn note(&self, pass: &mut Pass) -> Note
        requires { IsOf self.now pass.old }
        ensures pass { pass.new ≡ pass.old }
        ensures note { result ≡ record { home = pass.old.home; seen = pass.old.seen } }
    {
        let seat = self.table.shared.split_seat::<Noted>(&mut pass.seat);
        Note { seat }
    }

    /// After it the pass has seen what both had seen.
    pub fn meet(&self, pass: &mut Pass, note: Note)
        requires pass { IsOf self.now pass.old }
        requires note { IsNoteOf self.now note }
        ensures stepped { Stepped pass.old pass.new pass.old [] none_noted }
        ensures met { GoesOnFrom note.seen pass.new.seen }
    {
        let Note { seat } = note;
        self.table.shared.join_seat::<Met>(&mut pass.seat, seat);
        let place = self.shape.front_place();
        load_as::<Brand>(self, &mut pass.seat, place, Step::Looks);
    }
}
