ghost use Rattle.fm_workers_jobs.specs.Accounts.{after_take};
ghost use Rattle.fm_workers_jobs.specs.Turns.{account_of, CanTake, HasAccount};

use crate::fair::Taking;
use crate::item::Item;
use crate::jobs::{Jobs, Turn};
use std::sync::Wait;
use std::thread;

impl Jobs {
    /// The next job, or `None` at a stop, where the taker ends. Where the queue is empty it waits: its stop is still to
    /// come.
    pub fn take<R: Wait>(&self, rt: &R, turn: &mut Turn) -> Option<u32>
        requires { CanTake self.now turn.old }
        ensures { HasAccount self.now turn.new (after_take (account_of turn.old) result) }
    {
        for _ in rt.forever() {
            match self.queue.pop_as::<Taking, R>(rt, turn) {
                Some(Item::Job(job)) => return Some(job),
                Some(Item::Stop) => return None,
                None => thread::yield_now(),
            }
        }
        unreachable!()
    }
}
