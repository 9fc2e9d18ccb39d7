ghost use Rattle.fm_records.specs.declared.found.Found.TheVariants as found;

use crate::found::{Found, greater, lesser};
use crate::numbers::Numbers;
use fm_base::Refusal;

/// What numbers are added to, each kind of find by itself: a loop over values then needn't ask at each what it is.
pub(crate) trait Adder {
    ghost use Rattle.fm_records.specs.declared.found.Found.{Found};
    ghost use Rattle.fm_records.specs.Adds.{with_number};
    ghost use Rattle.fm_records.specs.Few.{HasRoom};
    ghost use Rattle.fm_records.specs.Kept.{Becomes};

    /// What was found so far.
    ghost found: { Self → Found };

    /// Adds the number of a value. Refused: `Memory`, which leaves it as it was.
    fn add(&mut self, number: i64) -> Result<(), Refusal>
        requires { HasRoom (found self.old) 1 }
        ensures { Becomes (found self.old) (found self.new) (with_number (found self.old) number) result };
}

impl Adder for Found {
    ghost found = { λ f. f };

    #[inline(always)]
    fn add(&mut self, number: i64) -> Result<(), Refusal> {
        self.add_number(number)
    }
}

/// A sum of numbers.
#[derive(Drop)]
pub(crate) struct Total {
    pub sum: i128,
}

impl Adder for Total {
    ghost found = { λ total. found.Sum total.sum };

    #[inline(always)]
    fn add(&mut self, number: i64) -> Result<(), Refusal> {
        self.sum += i128::from(number);
        Ok(())
    }
}

/// The least of numbers, if there is one.
#[derive(Drop)]
pub(crate) struct Least {
    pub least: Option<i64>,
}

impl Adder for Least {
    ghost found = { λ l. found.Least l.least };

    #[inline(always)]
    fn add(&mut self, number: i64) -> Result<(), Refusal> {
        self.least = lesser(self.least, Some(number));
        Ok(())
    }
}

/// The greatest of numbers, if there is one.
#[derive(Drop)]
pub(crate) struct Greatest {
    pub greatest: Option<i64>,
}

impl Adder for Greatest {
    ghost found = { λ g. found.Greatest g.greatest };

    #[inline(always)]
    fn add(&mut self, number: i64) -> Result<(), Refusal> {
        self.greatest = greater(self.greatest, Some(number));
        Ok(())
    }
}

/// All numbers, in their order.
impl Adder for Numbers {
    ghost found = { λ numbers. found.Listed numbers };

    #[inline(always)]
    fn add(&mut self, number: i64) -> Result<(), Refusal> {
        self.push(number)
    }
}
