ghost use Rattle.fm_workers_queue.specs.Accounts.{after_push};
ghost use Rattle.fm_workers_queue.specs.Turns.{account_of, HasAccount, IsAtWork};

use crate::fair::Pushing;
use crate::promise::Promise;
use crate::queue::{Queue, Turn};
use std::sync::Wait;
use std::thread;

impl<T: Drop, P: Promise<T>> Queue<T, P> {
    /// Pushes a job, which keeps its promise. Takers may be at work already. Where there is no room it waits.
    pub fn push<R: Wait>(&self, rt: &R, turn: &mut Turn<T>, job: T)
        requires turn { IsAtWork self.now turn.old }
        requires promise { P.promises job }
        ensures { HasAccount self.now turn.new (after_push (account_of turn.old) job) }
    {
        let mut left = job;
        for _ in rt.forever() {
            match self.jobs.push_as::<Pushing, R>(rt, turn, left) {
                Ok(()) => return,
                Err(back) => left = back,
            }
            thread::yield_now();
        }
        unreachable!()
    }
}
