ghost use Rattle.std.specs.Prelude.{◌≡◌, ◌≢◌, ◌<◌, ◌≤◌, ◌-◌, ◌^◌, ◌∷◌, ℕ, [], slice_index, sum, None, IfSome, IfOk, IfErr};
ghost use Rattle.fm_workers.specs.Counts.{AreCounts, AreSums, CountsToo, PassSums, number_of};

use fm_base::Refusal;
use std::marker::Model;

/// How often each value of a byte comes, as 256 numbers.
#[derive(Debug, Drop)]
pub struct Counts {
    items: [u64; 256],
}

impl Model for Counts {
    ghost use Rattle.std.specs.Prelude.{◌≡◌, List, ℕ, length};

    ghost Value = { List ℕ };

    ghost view = { λ c. c.items };

    ghost invariant = { λ c. length c.items ≡ 256 };
}

impl Counts {
    /// None comes yet.
    pub(crate) fn none() -> Counts
        ensures { AreCounts [] result }
    {
        Counts { items: [0; 256] }
    }

    /// Counts one number more, if it is one of a byte.
    pub(crate) fn count(&mut self, number: i64)
        requires { (place : ℕ) → place < 256 → slice_index self.old place < 2 ^ 64 - 1 }
        ensures { CountsToo (number ∷ []) self.old self.new }
    {
        let Some(place) = place_of(number) else {
            return;
        };
        self.items[place] += 1;
    }

    /// How many there are together.
    pub(crate) fn total(&self) -> u128
        ensures { result ≡ sum self.now }
    {
        let mut total = 0u128;
        for k in 0..256 {
            total += u128::from(self.items[k]);
        }
        total
    }

    /// Both added. Refused: `Memory`, exactly where a sum passes 64 bits.
    pub(crate) fn sum(&self, more: &Counts) -> Result<Counts, Refusal>
        ensures sums { IfOk result (λ counts. AreSums self.now more.now counts) }
        ensures memory { IfErr result (λ refusal. (refusal ≡ Refusal.Memory) × PassSums self.now more.now) }
    {
        let mut items = [0u64; 256];
        for k in 0..256 {
            match self.items[k].checked_add(more.items[k]) {
                Some(n) => items[k] = n,
                None => return Err(Refusal::Memory),
            }
        }
        Ok(Counts { items })
    }

    /// How often the value of this place comes: the places from 128 on are those of -128 to -1.
    pub fn at(&self, place: usize) -> u64
        requires { place < 256 }
        ensures { result ≡ slice_index self.now place }
    {
        self.items[place]
    }
}

/// Where a number is counted, if it is one of a byte.
fn place_of(number: i64) -> Option<usize>
    ensures some { IfSome result (λ place. (place < 256) × (number ≡ number_of place)) }
    ensures none { result ≡ None → (place : ℕ) → place < 256 → number ≢ number_of place }
{
    if number < -128 || number > 127 {
        return None;
    }
    if number < 0 {
        return Some((number + 256) as usize);
    }
    Some(number as usize)
}
