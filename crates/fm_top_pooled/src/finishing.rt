ghost use Rattle.fm_rule.specs.Finishing.{CanFinish, Finishes};
ghost use Rattle.fm_top_pooled.specs.Asking.{KeepsHistory};
ghost use Rattle.fm_top_pooled.specs.Stocked.{IsStocked};

use fm_rule::{Finished, Pass, Pool};
use fm_segment::Segment;
use std::alloc::Global;

/// Takes the pool apart, of which the pass speaks for all. The segment's records stand in it.
pub fn finish(alloc: Global, pool: Pool, pass: Pass, s: &Segment) -> Finished
    requires { IsStocked pool pass s.now }
    ensures { KeepsHistory pass result }
{
    take_apart(alloc, pool, pass)
}

/// Takes the pool apart, which takes no memory.
pub fn take_apart(alloc: Global, pool: Pool, pass: Pass) -> Finished
    requires { CanFinish pool pass }
    ensures { Finishes pool pass result }
{
    match pool.finish(alloc, pass) {
        Ok(finished) => finished,
        // It is never refused.
        Err(_) => unreachable!(),
    }
}
