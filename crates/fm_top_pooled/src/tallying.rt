ghost use Rattle.std.specs.Prelude.{IfOk};
ghost use Rattle.fm_top_pooled.specs.Asking.{Asked, HasPasses};
ghost use Rattle.fm_top_pooled.specs.Stocked.{bytes_in_pool};
ghost use Rattle.fm_top_pooled.specs.Tallied.{CanCount};
ghost use Rattle.fm_records.specs.Answers.{answer};
ghost use Rattle.fm_workers.specs.Counts.{AreCounts, listed};

use crate::wanting::unless_wanting;
use fm_io::Gate;
use fm_records_query::Query;
use fm_rule::{Pass, Pool};
use fm_segment::Segment;
use fm_workers::{Counts, tally_with};
use std::alloc::{AllocError, Global};
use std::sync::Wait;
use std::thread::Threads;

/// How many bytes 256 longs take.
pub const COUNTS_SIZE: u64 = 2048;

/// The counts of the numbers that the query lists over the records of a segment, by so many passes that are drawn for it.
pub fn count<R: Threads + Wait + Sync, G: Gate>(
    rt: &R,
    alloc: Global,
    pool: &Pool,
    pass: &mut Pass,
    s: &Segment,
    counts: &Segment,
    q: &Query,
    threads: u32,
    gate: &G,
) -> Result<Counts, AllocError>
    requires can { CanCount pool.now pass.old s.now counts.now q.now }
    requires passes { HasPasses pass.old threads }
    ensures value { IfOk result (AreCounts (listed (answer q.now (bytes_in_pool pass.old s.now)))) }
    ensures asked { IfOk result (λ _. Asked threads pool.now pass.old pass.new q.now s.now) }
{
    let found = tally_with(rt, alloc, pool, pass, q, s, counts, threads, gate);
    // Both arenas are alive and shared, there are passes enough, and the records are whole.
    unless_wanting(found)
}
