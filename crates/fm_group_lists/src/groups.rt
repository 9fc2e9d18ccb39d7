ghost use Rattle.std.specs.Prelude.{◌≡◌, ◌≢◌, ◌%◌, ◌^◌, ◌<◌, length, slice_index_or, pos, [], IfOk, OnErr};
ghost use Rattle.fm_group_lists.specs.Groups.{AreSummed, total_of};

use crate::sums::summed;
use std::alloc::{AllocError, Global};
use std::marker::Model;

/// Numbers in rising order, each once, with a count beside it. Seen as the list of these pairs.
#[derive(Debug, Drop)]
pub struct Groups {
    pairs: Vec<(i64, u64)>,
}

impl Model for Groups {
    ghost use Rattle.std.specs.Prelude.{List};
    ghost use Rattle.fm_group_lists.specs.Groups.{Group};

    ghost Value = { List Group };

    ghost view = { λ groups. groups.pairs.items };
}

impl Groups {
    /// All numbers of these pairs, each with the sum of the counts beside it, modulo 2^64. Want of memory comes only
    /// where there is a pair.
    pub fn of(alloc: Global, mut pairs: Vec<(i64, u64)>) -> Result<Groups, AllocError>
        ensures summed { IfOk result (λ groups. AreSummed pairs.items groups) }
        ensures wants { OnErr result (pairs.items ≢ []) }
    {
        pairs.sort_unstable();
        let sums = summed(alloc, &pairs)?;
        Ok(Groups { pairs: sums })
    }

    /// How many numbers there are.
    pub fn len(&self) -> usize
        ensures { result ≡ length self.now }
    {
        self.pairs.len()
    }

    /// The number of this index, and its count.
    pub fn at(&self, k: usize) -> (i64, u64)
        requires { k < length self.now }
        ensures { result ≡ slice_index_or self.now k (pos 0, 0) }
    {
        self.pairs[k]
    }
    /// The sum of all counts, modulo 2^64.
    pub fn total(&self) -> u64
        ensures { result ≡ total_of self.now % 2 ^ 64 }
    {
        let mut total = 0u64;
        for k in 0..self.pairs.len() {
            total = total.wrapping_add(self.pairs[k].1);
        }
        total
    }
}
