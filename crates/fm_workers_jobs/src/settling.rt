ghost use Rattle.fm_workers_jobs.specs.Turns.{account_of, CanSettle, HasAccount, IsSettled};

use crate::fair::Settling;
use crate::jobs::{Jobs, Turn};

impl Jobs {
    /// Says what became of the jobs, once all turns were absorbed: none was taken twice, and where a taker ended at a stop
    /// each was taken once.
    pub fn settle(&self, turn: &mut Turn)
        requires { CanSettle self.now turn.old }
        ensures account { HasAccount self.now turn.new (account_of turn.old) }
        ensures settled { IsSettled (account_of turn.old) }
    {
        self.queue.learn_as::<Settling>(turn);
    }
}
