ghost use Rattle.std.specs.Prelude.{◌≡◌};
ghost use Rattle.fm_rule.specs.Views as views;

use crate::seen::Seen;
use atomic_table::Seat;
use fm_base::{ArenaId, Caller, Kind};
use std::marker::Model;

/// No pass is inside this one: it stands where a pass hasn't looked at any.
pub(crate) const NO_ARENA: ArenaId = ArenaId {
    slot: 0,
    generation: 0,
    kind: Kind::Global,
    owner: 0,
    term: 0,
};

/// The arena, where the pass is inside it.
fn inside_of(is_inside: bool, current: ArenaId) -> Option<ArenaId>
    ensures { result ≡ views.inside_of is_inside current }
{
    if is_inside { Some(current) } else { None }
}

/// A part of an arena whose map word a pass has read. It is kept over visits: where it says how many words it has, the
/// map word was read in this visit; else it tells no more than where to look.
#[derive(Clone, Copy)]
pub struct Part {
    /// Its first word.
    pub(crate) first: u64,
    /// How many words it has, where its map word was read in this visit; else 0.
    pub(crate) words: u64,
    /// Where its words begin in the table, as long as its map word is the same.
    pub(crate) from: u64,
    /// The slot whose arenas have it.
    pub(crate) slot: u32,
    pub(crate) index: u32,
    /// How many words it has in any visit; 0 where it is no part.
    pub(crate) size: u64,
    /// Its map word, and where that stands in the table.
    pub(crate) word: u64,
    pub(crate) word_at: u64,
}

/// No part.
pub(crate) const NO_PART: Part = Part {
    first: 0,
    words: 0,
    from: 0,
    slot: 0,
    index: 0,
    size: 0,
    word: 0,
    word_at: 0,
};

/// One user of a pool. At most one step of it is under way at a time.
#[derive(Drop)]
pub struct Pass {
    pub(crate) seat: Seat<(), Seen>,
    pub(crate) caller: Caller,
    /// Whether it is inside an arena, which is the current one.
    pub(crate) is_inside: bool,
    /// The arena whose session it looked at last; an option of it would be put together anew at each visit.
    pub(crate) current: ArenaId,
    /// The part whose page it read last, and the one that it read before: who goes from one page to another at each
    /// word, as a copy does, looks up neither again.
    pub(crate) part: Part,
    pub(crate) other: Part,
    /// How many callers are gathered into it.
    pub(crate) gathered: u64,
}

impl Model for Pass {
    ghost use Rattle.fm_rule_facts.specs.Views.{View};
    ghost use Rattle.fm_rule.specs.Views.{homed, inside_of, numbers_of, Keeps};

    ghost Value = { View };

    ghost view = { λ p. homed (numbers_of p.seat.table_id) p.seat.me.0 };

    ghost invariant = { λ p. Keeps p.caller (inside_of p.is_inside p.current) (p.part, p.other) p.gathered p.seat.me };
}

impl Pass {
    ghost use Rattle.std.specs.Prelude.{◌≡◌};
    ghost use Rattle.std.specs.Prelude.{IfSome};
    ghost use Rattle.fm_rule_facts.specs.Views.{IsSound};
    ghost use Rattle.fm_rule_facts.specs.Steps.{HasPlace};

    /// The caller that it is.
    pub fn caller(&self) -> Caller
        ensures caller { result ≡ self.now.caller }
        ensures sound { IsSound self.now }
    {
        self.caller
    }

    /// Its number, below the shape's `passes`.
    pub fn number(&self) -> u32
        ensures number { result ≡ self.now.caller.number }
        ensures sound { IsSound self.now }
    {
        self.caller.number
    }

    /// Its term: how often its number was drawn and returned before.
    pub fn term(&self) -> u32
        ensures term { result ≡ self.now.caller.term }
        ensures sound { IsSound self.now }
    {
        self.caller.term
    }

    /// Where the word of this index of the arena stands that the pass is inside, if its part is one of the two that it read last.
    #[inline(always)]
    pub fn known_place(&self, word: u64) -> Option<u64>
        ensures { IfSome result (λ place. HasPlace self.now word place) }
    {
        let part = self.part;
        if part.first <= word && word - part.first < part.words {
            return Some(part.from + (word - part.first));
        }
        let other = self.other;
        if other.first <= word && word - other.first < other.words {
            return Some(other.from + (word - other.first));
        }
        None
    }

    /// The part that it read before the last counts as the last one from here on.
    pub(crate) fn swap_parts(&mut self)
        ensures { self.new ≡ self.old }
    {
        let part = self.part;
        self.part = self.other;
        self.other = part;
    }

    /// The arena in which it is under way; None exactly where it is outside.
    pub fn inside(&self) -> Option<ArenaId>
        ensures inside { result ≡ self.now.inside }
        ensures sound { IsSound self.now }
    {
        inside_of(self.is_inside, self.current)
    }
}
