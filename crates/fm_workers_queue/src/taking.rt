ghost use Rattle.std.specs.Prelude.{◌≡◌, IfSome, None};
ghost use Rattle.fm_workers_queue.specs.Accounts.{after_take};
ghost use Rattle.fm_workers_queue.specs.Turns.{account_of, HasAccount, IsAtWork, after_try};

use crate::fair::Taking;
use crate::promise::Promise;
use crate::queue::{Queue, Turn};
use std::sync::Wait;
use std::thread;

impl<T: Drop, P: Promise<T>> Queue<T, P> {
    /// The next job, or none where the queue is empty at one moment of the call.
    pub fn try_take<R: Wait>(&self, rt: &R, turn: &mut Turn<T>) -> Option<T>
        requires { IsAtWork self.now turn.old }
        ensures account { HasAccount self.now turn.new (after_try (account_of turn.old) result) }
        ensures promise { IfSome result P.promises }
    {
        self.jobs.pop_as::<Taking<P>, R>(rt, turn)
    }

    /// The next job. Where the queue is empty it lets others run, and tries again.
    pub fn take<R: Wait>(&self, rt: &R, turn: &mut Turn<T>) -> T
        requires { IsAtWork self.now turn.old }
        ensures account { HasAccount self.now turn.new (after_take (account_of turn.old) result) }
        ensures promise { P.promises result }
    {
        for _ in rt.forever() {
            match self.try_take(rt, turn) {
                Some(job) => return job,
                None => thread::yield_now(),
            }
        }
        unreachable!()
    }
}
