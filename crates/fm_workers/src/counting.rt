ghost use Rattle.std.specs.Prelude.{◌≡◌, ◌≤◌, ◌<◌, ◌*◌, ◌⊎◌, None};
ghost use Rattle.fm_base.specs.View.{Did};
ghost use Rattle.fm_workers.specs.Counts.{CountsToo, HasRoomFor, listed, numbers_listed};
ghost use Rattle.fm_workers.specs.Tallies.{CanCount, DoesCount};

use crate::counts::Counts;
use fm_base::{Memory, Refusal};
use fm_records::{Answer, Found, Numbers, query_segment};
use fm_records_query::Query;
use fm_segment::Segment;
use fm_workers_shares::records_of;
use std::alloc::Global;

/// How many bytes of records are listed at once, unless one record has more.
const LISTED_AT_ONCE: u64 = 65536;

/// How often the numbers come that a query lists over a region's records. Those of some records are listed and counted
/// before the next are read, so that a list doesn't grow with the region.
///
/// Refused: `Closed` or `Memory`.
pub(crate) fn count_records<M: Memory>(
    alloc: Global,
    m: &mut M,
    q: &Query,
    region: &Segment,
) -> Result<Counts, Refusal>
    requires { CanCount (M.view m.old) q.now region.now }
    ensures did { Did (M.view m.old) (M.view m.new) (DoesCount (M.view m.old).caller q.now region.now result) }
    ensures outside { (M.view m.new).inside ≡ None }
{
    let count = region.size() / q.record_size();
    let at_once = records_at_once(q.record_size());
    let mut counts = Counts::none();
    let mut from = 0u64;
    while from < count {
        let to = from + at_once.min(count - from);
        let run = records_of(q, region, from, to);
        let answer = match query_segment(alloc, m, q, &run) {
            Ok(answer) => answer,
            Err(refusal) => return Err(refusal),
        };
        count_listed(&answer, &mut counts);
        from = to;
    }
    Ok(counts)
}

/// How many records of a size are listed at once: those of 65,536 bytes, or one.
fn records_at_once(size: u64) -> u64
    requires { 0 < size }
    ensures some { 0 < result }
    ensures few { (result * size ≤ 65536) ⊎ (result ≡ 1) }
{
    (LISTED_AT_ONCE / size).max(1)
}

/// Counts the numbers too that the first item lists.
fn count_listed(answer: &Answer, counts: &mut Counts)
    requires { HasRoomFor (listed answer.now) counts.old }
    ensures { CountsToo (listed answer.now) counts.old counts.new }
{
    match answer.found() {
        [first, ..] => count_found(first, counts),
        [] => {}
    }
}

fn count_found(found: &Found, counts: &mut Counts)
    requires { HasRoomFor (numbers_listed found.now) counts.old }
    ensures { CountsToo (numbers_listed found.now) counts.old counts.new }
{
    match found {
        Found::Listed(numbers) => count_numbers(numbers, counts),
        Found::Count(_) | Found::Sum(_) | Found::Least(_) | Found::Greatest(_) => {}
    }
}

fn count_numbers(numbers: &Numbers, counts: &mut Counts)
    requires { HasRoomFor numbers.now counts.old }
    ensures { CountsToo numbers.now counts.old counts.new }
{
    for i in 0..numbers.len() {
        counts.count(numbers.at(i));
    }
}
