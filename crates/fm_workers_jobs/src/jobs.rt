ghost use Rattle.std.specs.Prelude.{◌≡◌, ◌<◌, IfOk};
ghost use Rattle.fm_workers_jobs.specs.Accounts.{giver};
ghost use Rattle.fm_workers_jobs.specs.Turns.{capacity_of, HasAccount};

use crate::account::Account;
use crate::fair::Fair;
use crate::item::Item;
use crossbeam_queue::{Pass, RuledArrayQueue};
use std::alloc::{AllocError, Global};

/// A queue of jobs that threads share, with room for a number of jobs and stops.
#[derive(Drop)]
pub struct Jobs {
    pub(crate) queue: RuledArrayQueue<Item, Account, Fair>,
}

/// What one thread pushed and took. It has no bytes, and is at one call at a time.
pub type Turn = Pass<Item, Account>;

impl Jobs {
    /// A queue with room for `capacity` jobs and stops, and the giver's turn. All memory is taken here.
    ///
    /// Refused only for want of memory; a capacity of 2^60 or more always is.
    pub fn new(alloc: Global, capacity: usize) -> Result<(Jobs, Turn), AllocError>
        requires { 0 < capacity }
        ensures { IfOk result (λ r. (capacity_of r.0 ≡ capacity) × HasAccount r.0 r.1 giver) }
    {
        let (queue, turn) = RuledArrayQueue::ruled(alloc, capacity)?;
        Ok((Jobs { queue }, turn))
    }
}
