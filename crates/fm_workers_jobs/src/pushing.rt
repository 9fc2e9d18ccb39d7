ghost use Rattle.fm_workers_jobs.specs.declared.item.Item.TheVariants.{Job, Stop};
ghost use Rattle.fm_workers_jobs.specs.Accounts.{after_push};
ghost use Rattle.fm_workers_jobs.specs.Turns.{account_of, CanPush, HasAccount};

use crate::fair::Pushing;
use crate::item::Item;
use crate::jobs::{Jobs, Turn};
use std::sync::Wait;

impl Jobs {
    /// Pushes an item. There is room, since whoever knows how many were pushed knows that no more are there.
    fn push<R: Wait>(&self, rt: &R, turn: &mut Turn, item: Item)
        requires { CanPush self.now turn.old item }
        ensures { HasAccount self.now turn.new (after_push (account_of turn.old) item) }
    {
        match self.queue.push_as::<Pushing, R>(rt, turn, item) {
            Ok(()) => (),
            Err(_) => unreachable!(),
        }
    }

    /// Pushes a job. Takers may be at work already; no stop was pushed yet.
    pub fn push_job<R: Wait>(&self, rt: &R, turn: &mut Turn, job: u32)
        requires { CanPush self.now turn.old (Job job) }
        ensures { HasAccount self.now turn.new (after_push (account_of turn.old) (Job job)) }
    {
        self.push(rt, turn, Item::Job(job));
    }

    /// Pushes a stop, at which one taker ends. No job comes behind it.
    pub fn push_stop<R: Wait>(&self, rt: &R, turn: &mut Turn)
        requires { CanPush self.now turn.old Stop }
        ensures { HasAccount self.now turn.new (after_push (account_of turn.old) Stop) }
    {
        self.push(rt, turn, Item::Stop);
    }
}
