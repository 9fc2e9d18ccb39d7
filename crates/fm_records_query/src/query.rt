ghost use Rattle.std.specs.Prelude.{◌≡◌};
ghost use Rattle.fm_records_query.specs.Plan.{IsPlan};

use crate::condition::Condition;
use crate::item::Item;
use std::marker::Model;

/// A query over records of one layout.
#[derive(Debug, Drop)]
pub struct Query {
    size: u64,
    alignment: u64,
    items: Vec<Item>,
    conditions: Vec<Condition>,
}

impl Model for Query {
    ghost use Rattle.fm_records_query.specs.Plan.{Plan, plan, IsPlan};

    ghost Value = { Plan };

    ghost view = { λ q. plan q.size q.alignment q.items.items q.conditions.items };

    ghost invariant = { λ q. IsPlan (plan q.size q.alignment q.items.items q.conditions.items) };
}

impl Query {
    ghost use Rattle.fm_records_query.specs.Plan.{plan};

    /// The query of these parts: the record's size and alignment in bytes, items and conditions.
    pub(crate) fn of(
        size: u64,
        alignment: u64,
        items: Vec<Item>,
        conditions: Vec<Condition>,
    ) -> Query
        requires { IsPlan (plan size alignment items.items conditions.items) }
        ensures { result ≡ plan size alignment items.items conditions.items }
    {
        Query {
            size,
            alignment,
            items,
            conditions,
        }
    }

    /// The size of a record, in bytes.
    pub fn record_size(&self) -> u64
        ensures size { result ≡ self.now.size }
        ensures plan { IsPlan self.now }
    {
        self.size
    }

    /// The alignment of a record, in bytes.
    pub fn record_alignment(&self) -> u64
        ensures alignment { result ≡ self.now.alignment }
        ensures plan { IsPlan self.now }
    {
        self.alignment
    }

    /// What is asked, in the order of the text.
    pub fn items(&self) -> &[Item]
        ensures items { result.now ≡ self.now.items }
        ensures plan { IsPlan self.now }
    {
        self.items.as_slice()
    }

    /// Which records are chosen: those in which all of these hold.
    pub fn conditions(&self) -> &[Condition]
        ensures conditions { result.now ≡ self.now.conditions }
        ensures plan { IsPlan self.now }
    {
        self.conditions.as_slice()
    }
}
