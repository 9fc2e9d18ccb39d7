ghost use Rattle.std.specs.Prelude.{◌≡◌, ◌++◌, ◌∷◌, [], ◌<◌, ◌-◌, length, slice_index_or, take, pos};
ghost use Rattle.fm_records.specs.Kept.{Becomes};

use crate::stored::Stored;
use fm_base::Refusal;
use fm_lanes::ValueKind;
use std::alloc::Global;
use std::marker::Model;

/// Listed numbers, seen as their list.
///
/// They stand in the width of a kind, so that a list of bytes takes a byte a number; where a number is wider, all of them
/// become longs. `Stored` says so; no clause here does, since callers see the list alone.
#[derive(Debug, Drop)]
pub struct Numbers {
    alloc: Global,
    stored: Stored,
}

impl Model for Numbers {
    ghost use Rattle.std.specs.Prelude.{List, ℤ};
    ghost use Rattle.fm_records.specs.Stored.{numbers_of};

    ghost Value = { List ℤ };

    ghost view = { λ numbers. numbers_of numbers.stored };
}

impl Numbers {
    /// No numbers yet, of this kind. Takes no memory.
    pub fn new(alloc: Global, kind: ValueKind) -> Numbers
        ensures { result ≡ [] }
    {
        Numbers {
            alloc,
            stored: Stored::new(alloc, kind),
        }
    }

    /// These numbers.
    pub fn of(alloc: Global, items: Vec<i64>) -> Numbers
        ensures { result ≡ items.items }
    {
        Numbers {
            alloc,
            stored: Stored::Longs(items),
        }
    }

    /// How many there are.
    pub fn len(&self) -> usize
        ensures { result ≡ length self.now }
    {
        self.stored.len()
    }

    /// The number of this index.
    pub fn at(&self, k: usize) -> i64
        requires { k < length self.now }
        ensures { result ≡ slice_index_or self.now k (pos 0) }
    {
        self.stored.at(k)
    }

    /// Adds a number at the end. Refused: `Memory`, which leaves them as they were.
    #[inline(always)]
    pub(crate) fn push(&mut self, number: i64) -> Result<(), Refusal>
        ensures { Becomes self.old self.new (self.old ++ number ∷ []) result }
    {
        self.stored.push(self.alloc, number)
    }

    /// Adds numbers at the end. Refused: `Memory`, which leaves them as they were.
    pub(crate) fn append(&mut self, more: &Numbers) -> Result<(), Refusal>
        ensures { Becomes self.old self.new (self.old ++ more.now) result }
    {
        self.stored.append(self.alloc, &more.stored)
    }

    /// Takes away as many numbers from the end as these are.
    pub(crate) fn shorten(&mut self, more: &Numbers)
        ensures { self.new ≡ take (length self.old - length more.now) self.old }
    {
        let len = self.len().saturating_sub(more.len());
        self.stored.truncate(len);
    }
}
