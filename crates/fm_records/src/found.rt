ghost use Rattle.std.specs.Prelude.{◌≡◌, []};
ghost use Rattle.fm_records.specs.Answers as answers;
ghost use Rattle.fm_records.specs.Answers.{found_in};
ghost use Rattle.fm_records.specs.Joined.{CanJoinFound, both, lengthened, shortened, summed};
ghost use Rattle.fm_records.specs.declared.found.Found.TheVariants.{Count};
ghost use Rattle.fm_records.specs.Few.{HasRoom};
ghost use Rattle.fm_records.specs.Adds.{with_number};
ghost use Rattle.fm_records.specs.Kept.{Becomes};

use crate::numbers::Numbers;
use fm_base::Refusal;
use fm_records_query::{Asked, Fold};
use std::alloc::Global;

/// What an item of a query finds in the chosen records.
#[derive(Debug, Drop)]
pub enum Found {
    /// How many there are.
    Count(u64),
    /// The sum of the path's values in them.
    Sum(i128),
    /// The least of the values, if there is one.
    Least(Option<i64>),
    /// The greatest of the values, if there is one.
    Greatest(Option<i64>),
    /// The values, in the order of records.
    Listed(Numbers),
}

impl Found {
    /// What is found in no records. Takes no memory.
    pub(crate) fn in_none(alloc: Global, asked: &Asked) -> Found
        ensures { result ≡ found_in [] asked.now }
    {
        match asked {
            Asked::Count => Found::Count(0),
            Asked::Of(fold, path) => match fold {
                Fold::Sum => Found::Sum(0),
                Fold::Least => Found::Least(None),
                Fold::Greatest => Found::Greatest(None),
                Fold::All => Found::Listed(Numbers::new(alloc, path.value().kind)),
            },
        }
    }

    /// Puts listed numbers behind those listed here. Refused: `Memory`, which leaves them as they were.
    pub(crate) fn lengthen(&mut self, next: &Found) -> Result<(), Refusal>
        ensures { Becomes self.old self.new (lengthened self.old next.now) result }
    {
        match (self, next) {
            (Found::Listed(numbers), Found::Listed(more)) => numbers.append(more),
            _ => Ok(()),
        }
    }

    /// Takes the last listed numbers away again, as many as the next has.
    pub(crate) fn shorten(&mut self, next: &Found)
        ensures { self.new ≡ shortened self.old next.now }
    {
        if let (Found::Listed(numbers), Found::Listed(more)) = (self, next) {
            numbers.shorten(more);
        }
    }

    /// Adds what the next found, but for listed numbers.
    pub(crate) fn add(&mut self, next: &Found)
        requires { CanJoinFound self.old next.now }
        ensures { self.new ≡ summed self.old next.now }
    {
        match (self, next) {
            (Found::Count(count), Found::Count(n)) => *count += *n,
            (Found::Sum(sum), Found::Sum(n)) => *sum += *n,
            (Found::Least(least), Found::Least(n)) => *least = lesser(*least, *n),
            (Found::Greatest(greatest), Found::Greatest(n)) => *greatest = greater(*greatest, *n),
            _ => {}
        }
    }

    /// Adds so many chosen records to a count.
    pub(crate) fn add_records(&mut self, n: u64)
        requires { HasRoom self.old n }
        ensures { self.new ≡ both self.old (Count n) }
    {
        if let Found::Count(count) = self {
            *count += n;
        }
    }

    /// Adds the number of a value. Refused: `Memory`, which leaves it as it was.
    #[inline(always)]
    pub(crate) fn add_number(&mut self, number: i64) -> Result<(), Refusal>
        requires { HasRoom self.old 1 }
        ensures { Becomes self.old self.new (with_number self.old number) result }
    {
        match self {
            Found::Count(_) => {}
            Found::Sum(sum) => *sum += i128::from(number),
            Found::Least(least) => *least = lesser(*least, Some(number)),
            Found::Greatest(greatest) => *greatest = greater(*greatest, Some(number)),
            Found::Listed(numbers) => return numbers.push(number),
        }
        Ok(())
    }
}

/// The lesser of two numbers, of which each may be missing.
pub(crate) fn lesser(a: Option<i64>, b: Option<i64>) -> Option<i64>
    ensures { result ≡ answers.lesser a b }
{
    match (a, b) {
        (Some(x), Some(y)) => Some(x.min(y)),
        (Some(x), None) => Some(x),
        (None, o) => o,
    }
}

/// The greater of two numbers, of which each may be missing.
pub(crate) fn greater(a: Option<i64>, b: Option<i64>) -> Option<i64>
    ensures { result ≡ answers.greater a b }
{
    match (a, b) {
        (Some(x), Some(y)) => Some(x.max(y)),
        (Some(x), None) => Some(x),
        (None, o) => o,
    }
}
