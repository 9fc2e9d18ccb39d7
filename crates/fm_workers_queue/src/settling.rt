ghost use Rattle.fm_workers_queue.specs.Turns.{account_of, CanSettle, HasAccount, IsSettled};

use crate::fair::Settling;
use crate::promise::Promise;
use crate::queue::{Queue, Turn};

impl<T: Drop, P: Promise<T>> Queue<T, P> {
    /// Says what became of the jobs, once all turns were absorbed: none was taken oftener than it was pushed.
    pub fn settle(&self, turn: &mut Turn<T>)
        requires { CanSettle self.now turn.old }
        ensures account { HasAccount self.now turn.new (account_of turn.old) }
        ensures settled { IsSettled (account_of turn.old) }
    {
        self.jobs.learn_as::<Settling>(turn);
    }
}
