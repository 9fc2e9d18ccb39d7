ghost use Rattle.fm_workers_jobs.specs.Accounts.{after_batch, after_jobs, after_stops};
ghost use Rattle.fm_workers_jobs.specs.Turns.{account_of, CanPushBatch, CanPushStops, HasAccount};

use crate::jobs::{Jobs, Turn};
use std::sync::Wait;

impl Jobs {
    /// Pushes the jobs `from` to `to - 1`, in order.
    fn push_jobs<R: Wait>(&self, rt: &R, turn: &mut Turn, from: u32, to: u32)
        requires { CanPushBatch self.now turn.old from to 0 }
        ensures { HasAccount self.now turn.new (after_jobs (account_of turn.old) from to) }
    {
        for job in from..to {
            self.push_job(rt, turn, job);
        }
    }

    /// Pushes a stop for each taker.
    fn push_stops<R: Wait>(&self, rt: &R, turn: &mut Turn, takers: u32)
        requires { CanPushStops self.now turn.old takers }
        ensures { HasAccount self.now turn.new (after_stops (account_of turn.old) takers) }
    {
        for _ in 0..takers {
            self.push_stop(rt, turn);
        }
    }

    /// Pushes the jobs `from` to `to - 1`, in order, and behind them a stop for each taker.
    pub fn push_batch<R: Wait>(&self, rt: &R, turn: &mut Turn, from: u32, to: u32, takers: u32)
        requires { CanPushBatch self.now turn.old from to takers }
        ensures { HasAccount self.now turn.new (after_batch (account_of turn.old) from to takers) }
    {
        self.push_jobs(rt, turn, from, to);
        self.push_stops(rt, turn, takers);
    }
}
