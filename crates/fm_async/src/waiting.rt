ghost use Rattle.std.specs.Prelude.{◌≡◌, false, [], vec_capacity};
ghost use Rattle.fm_close.specs.Learnt.{CanWalk};
ghost use Rattle.fm_async.specs.Polls.{Polls, PollsEach};
ghost use Rattle.fm_async.specs.Sets.{IsSet, SweepsAll, closes_of, unfinished};

use crate::advancing::advance;
use fm_close::{Shutting, sweep};
use fm_rule::{Pass, Pool};

/// A close of a set, and the number whose mark the last poll found to name its arena.
pub struct Waiting {
    pub(crate) close: Shutting,
    pub(crate) blocker: Option<u32>,
}

/// Visits marks for each of the closes, in their order, up to one that names its arena, or up to its end.
pub(crate) fn advance_all(pool: &Pool, pass: &mut Pass, closes: &mut Vec<Waiting>)
    requires { IsSet pool.now pass.old (closes_of closes.old.items) }
    ensures is { IsSet pool.now pass.new (closes_of closes.new.items) }
    ensures each { PollsEach pool.now pass.old pass.new closes.old.items closes.new.items }
    ensures capacity { vec_capacity closes.new ≡ vec_capacity closes.old }
{
    for i in 0..closes.len() {
        let waiting = &mut closes[i];
        advance_one(pool, pass, waiting);
    }
}

/// The same for one of them.
fn advance_one(pool: &Pool, pass: &mut Pass, waiting: &mut Waiting)
    requires { waiting.old.close.ended ≡ false → CanWalk pool.now pass.old waiting.old.close }
    ensures { Polls pool.now pass.old pass.new waiting.old waiting.new }
{
    if waiting.close.is_ended() {
        waiting.blocker = None;
    } else {
        waiting.blocker = advance(pool, pass, &mut waiting.close);
    }
}

/// Gives back the pages and the slots of all their arenas, which have ended.
pub(crate) fn sweep_all(pool: &Pool, pass: &mut Pass, closes: &mut Vec<Waiting>)
    requires is { IsSet pool.now pass.old (closes_of closes.old.items) }
    requires ended { unfinished (closes_of closes.old.items) ≡ 0 }
    ensures is { IsSet pool.now pass.new (closes_of closes.new.items) }
    ensures empty { closes.new.items ≡ [] }
    ensures sweeps { SweepsAll pass.old pass.new (closes_of closes.old.items) }
    ensures capacity { vec_capacity closes.new ≡ vec_capacity closes.old }
{
    while let Some(waiting) = closes.pop() {
        let Waiting { close, blocker: _ } = waiting;
        sweep(pool, pass, close);
    }
}

/// How many of the arenas haven't ended.
pub(crate) fn count_unfinished(closes: &[Waiting]) -> usize
    ensures { result ≡ unfinished (closes_of closes.now) }
{
    let mut count = 0;
    for waiting in closes {
        if !waiting.close.is_ended() {
            count += 1;
        }
    }
    count
}
