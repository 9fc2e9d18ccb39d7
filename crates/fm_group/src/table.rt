ghost use Rattle.std.specs.Prelude.{◌≡◌, true, false};
ghost use Rattle.fm_group.specs.Asked.{CanCount, IsReady};
ghost use Rattle.fm_group.specs.Counting.{MayCount};
ghost use Rattle.fm_group.specs.Learnt.{AfterCount, AfterReadGroups};
ghost use Rattle.fm_group.specs.Table.{CanTable, counter};

use crate::order::PlaceOrder;
use crate::values::Values;
use fm_base::{Memory, Refusal};
use fm_group_lists::Groups;
use fm_segment::Segment;
use fm_segment_access::may_use;
use std::alloc::Global;
use std::marker::Model;

/// A table of places, each with a claim and a count, in which values are counted by their numbers.
#[derive(Drop)]
pub struct CountTable {
    pub(crate) segment: Segment,
    pub(crate) values: Values,
    pub(crate) order: PlaceOrder,
    pub(crate) places: u64,
    /// Whether the places are a power of two in number.
    pub(crate) power: bool,
}

impl Model for CountTable {
    ghost use Rattle.std.specs.{Prelude.{◌≡◌}, Int.{is_power_of_two}};
    ghost use Rattle.fm_group.specs.Table.{CanTable, Counter, counter, places_in};

    ghost Value = { Counter };

    ghost view = { λ t. counter t.segment t.values t.order };

    ghost invariant = { λ t. CanTable (counter t.segment t.values t.order)
        × (t.places ≡ places_in t.segment) × (t.power ≡ is_power_of_two t.places) };
}

impl CountTable {
    /// A table in this segment, whose places are tried from the number modulo the places on. A place has two longs, a
    /// claim and a count. Who begins to count begins with bytes that are 0.
    pub fn over(segment: Segment, values: Values) -> CountTable
        requires { CanTable (counter segment values PlaceOrder.ByRemainder) }
        ensures { result ≡ counter segment values PlaceOrder.ByRemainder }
    {
        CountTable::with_order(segment, values, PlaceOrder::ByRemainder)
    }

    /// The same, with this order of places.
    pub fn with_order(segment: Segment, values: Values, order: PlaceOrder) -> CountTable
        requires { CanTable (counter segment values order) }
        ensures { result ≡ counter segment values order }
    {
        let places = segment.size() / 16;
        CountTable {
            segment,
            values,
            order,
            places,
            power: places.is_power_of_two(),
        }
    }

    /// The segment of its places.
    pub fn segment(&self) -> &Segment
        ensures segment { result.now ≡ self.now.table }
        ensures can { CanTable self.now }
    {
        &self.segment
    }

    /// The values that it counts.
    pub fn values(&self) -> &Values
        ensures { result.now ≡ self.now.values }
    {
        &self.values
    }

    /// Counts a value one more: at the first place, in the table's order for its number, that was free or is claimed
    /// for an equal number. Answers the place. A claim that names no value counts as one for another number.
    ///
    /// A value's words are read where its number is needed, once: this value's first, and then that of each claim that
    /// is met. The count is one more in the visit that claimed the place, or in one behind that which met the claim.
    ///
    /// Refused, in this order: `WrongThread`, where either arena is confined to another caller; then `Closed` at the
    /// visit that finds an arena closed, or `TableFull`, where each place is claimed for another number. A refused call
    /// has written nothing on the table.
    pub fn count<M: Memory>(&self, m: &mut M, ordinal: u64) -> Result<u64, Refusal>
        requires { CanCount (M.view m.old) self.now ordinal }
        ensures { AfterCount (M.view m.old) (M.view m.new) self.now ordinal result }
    {
        if !self.may_count(m) {
            return Err(Refusal::WrongThread);
        }
        let number = self.values.number(m, ordinal)?;
        self.try_places(m, ordinal, number)
    }

    /// The numbers that places are claimed for, in rising order, each once, and beside each the sum of the counts of
    /// its places, modulo 2^64. Two places may be claimed for one number; they are summed up.
    ///
    /// Each word is read once, the lowest first, in runs of 64 places, each in one visit: of each place its claim and
    /// then its count. Behind the visit the values are read that the run's claims name. Who reads while others count
    /// sees each place as it is then.
    ///
    /// Refused, in this order: `WrongThread`, where either arena is confined to another caller; then `Closed` at the
    /// visit that finds an arena closed, or `Memory`, which is wanting only where a claim was found to name a value.
    pub fn read_groups<M: Memory>(&self, alloc: Global, m: &mut M) -> Result<Groups, Refusal>
        requires { IsReady (M.view m.old) self.now }
        ensures { AfterReadGroups (M.view m.old) (M.view m.new) self.now result }
    {
        if !self.may_count(m) {
            return Err(Refusal::WrongThread);
        }
        let found = self.read_places(alloc, m)?;
        let groups = Groups::of(alloc, found)?;
        Ok(groups)
    }

    /// Whether the caller may use both arenas.
    #[inline(always)]
    fn may_count<M: Memory>(&self, m: &M) -> bool
        ensures can { CanTable self.now }
        ensures yes { result ≡ true → MayCount (M.view m.now).caller self.now }
        ensures no { result ≡ false → ¬ (MayCount (M.view m.now).caller self.now) }
    {
        may_use(m, self.values.records().arena()) && may_use(m, self.segment.arena())
    }
}
