ghost use Rattle.std.specs.Prelude.{◌≡◌, ◌<◌, IfOk};
ghost use Rattle.fm_workers_queue.specs.Accounts.{owner};
ghost use Rattle.fm_workers_queue.specs.Turns.{capacity_of, HasAccount};

use crate::account::Account;
use crate::fair::Fair;
use crate::promise::Promise;
use crossbeam_queue::{Pass, RuledArrayQueue};
use std::alloc::{AllocError, Global};

/// A queue of jobs that threads share, with room for a number of jobs. Each job keeps the promise `P`.
#[derive(Drop)]
pub struct Queue<T, P: Promise<T>> {
    pub(crate) jobs: RuledArrayQueue<T, Account<T>, Fair<P>>,
}

/// What one thread pushed and took. It has no bytes, and is at one call at a time.
pub type Turn<T> = Pass<T, Account<T>>;

impl<T: Drop, P: Promise<T>> Queue<T, P> {
    /// A queue with room for `capacity` jobs, and the owner's turn. All memory is taken here.
    ///
    /// Refused only for want of memory; a capacity of 2^60 or more always is.
    pub fn new(alloc: Global, capacity: usize) -> Result<(Queue<T, P>, Turn<T>), AllocError>
        requires { 0 < capacity }
        ensures { IfOk result (λ r. (capacity_of r.0 ≡ capacity) × HasAccount r.0 r.1 owner) }
    {
        let (jobs, turn) = RuledArrayQueue::ruled(alloc, capacity)?;
        Ok((Queue { jobs }, turn))
    }
}
