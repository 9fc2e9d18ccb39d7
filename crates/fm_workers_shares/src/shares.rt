ghost use Rattle.std.specs.Prelude.{◌≡◌, ◌*◌, ◌+◌, ◌-◌, ◌/◌, ◌%◌, ◌<◌, ◌≤◌, ◌^◌};
ghost use Rattle.fm_segment.specs.Region.{part_of};
ghost use Rattle.fm_workers_shares.specs.Shares.{IsCut, cut, each_of, share_of};

use crate::answers::{Answers, Done};
use crate::job::Job;
use fm_base::{Memory, Refusal};
use fm_records::query_segment;
use fm_records_query::Query;
use fm_segment::Segment;
use std::alloc::Global;
use std::marker::Model;

/// The records of a segment, of which a query is asked, in shares: all have as many records, but for the last.
#[derive(Drop)]
pub struct Shares<'a> {
    query: &'a Query,
    segment: &'a Segment,
    /// How many records a share has.
    each: u64,
}

impl<'a> Model for Shares<'a> {
    ghost use Rattle.fm_workers_shares.specs.Shares.{Cut, IsCut, cut};

    ghost Value = { Cut };

    ghost view = { λ k. cut k.query.now k.segment.now k.each };

    ghost invariant = { λ k. IsCut (cut k.query.now k.segment.now k.each) };
}

impl<'a> Shares<'a> {
    /// At most four for each of so many threads. The segment has whole records.
    pub fn of(query: &'a Query, segment: &'a Segment, threads: u32) -> Shares<'a>
        requires some { 0 < threads }
        requires few { threads ≤ 16 }
        requires even { segment.now.size % query.now.size ≡ 0 }
        ensures cut { result ≡ cut query.now segment.now (each_of (segment.now.size / query.now.size) threads) }
        ensures whole { IsCut result }
    {
        let each = records_each(segment.size() / query.record_size(), threads);
        Shares {
            query,
            segment,
            each,
        }
    }

    pub fn query(&self) -> &Query
        ensures { result.now ≡ self.now.plan }
    {
        self.query
    }

    /// The records of the share of a number. Past the last share there are none.
    pub fn numbered(&self, number: u32) -> Segment
        ensures share { result ≡ share_of self.now.plan self.now.segment self.now.each number }
        ensures whole { IsCut self.now }
    {
        let count = self.segment.size() / self.query.record_size();
        let number = u64::from(number);
        let from = number.saturating_mul(self.each).min(count);
        let to = (number + 1).saturating_mul(self.each).min(count);
        records_of(self.query, self.segment, from, to)
    }
}

/// A query's answers, share by share.
impl<'a> Job<Answers> for Shares<'a> {
    ghost use Rattle.fm_workers_shares.specs.Asking.{CanAsk, asking, can_ask_later};

    ghost can = { CanAsk };

    ghost making = { asking };

    fn count(&self) -> u32 {
        let count = self.segment.size() / self.query.record_size();
        count.div_ceil(self.each) as u32
    }

    fn none(&self, alloc: Global) -> Answers {
        Answers {
            done: Vec::new(alloc),
        }
    }

    /// Answers a share, and keeps the answer. Refused: `Closed` or `Memory`.
    fn share<M: Memory>(
        &self,
        alloc: Global,
        m: &mut M,
        number: u32,
        part: &mut Answers,
    ) -> Result<(), Refusal> {
        let share = self.numbered(number);
        if part.done.reserve(1).is_err() {
            return Err(Refusal::Memory);
        }
        let answer = query_segment(alloc, m, self.query, &share)?;
        part.done.push_reserved(Done {
            job: number,
            answer,
        });
        Ok(())
    }

    fn end<M: Memory>(&self, _m: &mut M, _part: &Answers) -> Result<(), Refusal> {
        Ok(())
    }

    ghost stays = { λ k v u. can_ask_later k };
}

/// How many records a share has: the records divided by four times the threads, rounded up, and at least one.
fn records_each(count: u64, threads: u32) -> u64
    requires { 0 < threads }
    ensures each { result ≡ each_of count threads }
    ensures some { 0 < result }
{
    count.div_ceil(4 * u64::from(threads)).max(1)
}

/// The records from one index on, up to another, as a segment of their own.
pub fn records_of(q: &Query, s: &Segment, from: u64, to: u64) -> Segment
    requires order { from ≤ to }
    requires within { to ≤ s.now.size / q.now.size }
    requires small { s.now.size ≤ 2 ^ 40 }
    ensures { result ≡ part_of (from * q.now.size) ((to - from) * q.now.size) s.now }
{
    let size = q.record_size();
    part(s, from * size, (to - from) * size)
}

/// So many bytes of the segment from an offset on, which it has.
fn part(s: &Segment, offset: u64, size: u64) -> Segment
    requires { offset + size ≤ s.now.size }
    ensures { result ≡ part_of offset size s.now }
{
    let Ok(bytes) = s.as_slice(offset, size) else {
        unreachable!()
    };
    bytes
}
