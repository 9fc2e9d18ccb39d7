ghost use Rattle.std.specs.Prelude.{◌≡◌, ◌+◌, ◌/◌, ◌%◌, ◌<◌, None, Some, IfSome};
ghost use Rattle.fm_base.specs.View.{Did};
ghost use Rattle.fm_group.specs.Asked.{CanNumber, CanValue};
ghost use Rattle.fm_group.specs.Counting.{ReadsValue};
ghost use Rattle.fm_group.specs.Learnt.{AfterNumber};
ghost use Rattle.fm_group.specs.Table.{named_by};
ghost use Rattle.fm_group.specs.Values.{AreValued, count_of, in_record, offset_of, valued};

use crate::places::{count_values, offset_of};
use fm_base::{Memory, Refusal};
use fm_path::Resolved;
use fm_records::number_of_value;
use fm_segment::Segment;
use fm_segment_access::may_use;
use std::marker::Model;

/// The values of a path in the records of a segment, numbered from 0: records in order, in one record in the order of
/// index lists, the last index changing fastest.
#[derive(Drop)]
pub struct Values {
    path: Resolved,
    records: Segment,
    /// How many a record has.
    each: u64,
    /// How many there are.
    len: u64,
}

impl Model for Values {
    ghost use Rattle.std.specs.Prelude.{◌≡◌};
    ghost use Rattle.fm_group.specs.Values.{AreValued, Valued, count_of, in_record, valued};

    ghost Value = { Valued };

    ghost view = { λ v. valued v.path v.records };

    ghost invariant = { λ v. AreValued (valued v.path v.records)
        × (v.each ≡ in_record (valued v.path v.records)) × (v.len ≡ count_of (valued v.path v.records)) };
}

impl Values {
    /// Those of a path in the records that a segment holds.
    pub fn of(path: Resolved, records: Segment) -> Values
        requires { AreValued (valued path records) }
        ensures { result ≡ valued path records }
    {
        let each = count_values(path.dims().as_slice());
        let len = records.size() / path.root_size() * each;
        Values {
            path,
            records,
            each,
            len,
        }
    }

    /// How many there are.
    pub fn len(&self) -> u64
        ensures { result ≡ count_of self.now }
    {
        self.len
    }

    /// The number of a value, by its words, each of which is read in a visit of its own.
    ///
    /// Refused, in this order: `WrongThread`, `Closed`.
    pub fn number_at<M: Memory>(&self, m: &mut M, ordinal: u64) -> Result<i64, Refusal>
        requires { CanNumber (M.view m.old) self.now ordinal }
        ensures { AfterNumber (M.view m.old) (M.view m.new) self.now ordinal result }
    {
        if !may_use(m, self.records.arena()) {
            return Err(Refusal::WrongThread);
        }
        self.number(m, ordinal)
    }

    /// The segment of their records.
    pub fn records(&self) -> &Segment
        ensures { result.now ≡ self.now.records }
    {
        &self.records
    }

    /// The record of a value, and which of the record's values it is.
    #[inline(always)]
    fn parts_of(&self, ordinal: u64) -> (u64, u64)
        requires { ordinal < count_of self.now }
        ensures record { result.0 ≡ ordinal / in_record self.now }
        ensures index { result.1 ≡ ordinal % in_record self.now }
    {
        if self.each == 1 {
            (ordinal, 0)
        } else {
            (ordinal / self.each, ordinal % self.each)
        }
    }

    /// Where a value stands.
    fn place_of(&self, ordinal: u64) -> u64
        requires { ordinal < count_of self.now }
        ensures { result ≡ self.now.records.first + offset_of self.now ordinal }
    {
        let (record, index) = self.parts_of(ordinal);
        let offset = offset_of(self.path.offset(), self.path.dims().as_slice(), index);
        self.records.first() + (record * self.path.root_size() + offset)
    }

    /// The number of a value. The caller may use the arena. Refused: `Closed`.
    pub(crate) fn number<M: Memory>(&self, m: &mut M, ordinal: u64) -> Result<i64, Refusal>
        requires { CanValue (M.view m.old) self.now ordinal }
        ensures did { Did (M.view m.old) (M.view m.new) (ReadsValue (M.view m.old).caller self.now ordinal result) }
        ensures outside { (M.view m.new).inside ≡ None }
    {
        number_of_value(m, &self.records, self.place_of(ordinal), self.path.value())
    }

    /// The value that a claim names, if there is such a one.
    #[inline(always)]
    pub(crate) fn named(&self, claim: u64) -> Option<u64>
        ensures { result ≡ named_by self.now claim }
    {
        if claim == 0 {
            return None;
        }
        if claim - 1 < self.len {
            return Some(claim - 1);
        }
        None
    }
}
