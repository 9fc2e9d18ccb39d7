ghost use Rattle.std.specs.Prelude.{◌≡◌, MatchBool};
ghost use Rattle.fm_gate.specs.Needs.{IsOutside};
ghost use Rattle.fm_workers.specs.Counts.{IsTally, IsByteKind, ListsBytes};
ghost use Rattle.fm_workers.specs.Tally.{CanTallyWith, TalliedWith};

use crate::adding::add_counts;
use crate::counting::count_records;
use crate::counts::Counts;
use crate::crew::Crew;
use crate::sharing::share_out;
use fm_base::{Memory, Refusal};
use fm_io::Gate;
use fm_lanes::ValueKind;
use fm_records_query::{Asked, Fold, Query};
use fm_rule::{Pass, Pool};
use fm_segment::Segment;
use fm_workers_shares::{Job, Shares, Whole};
use std::alloc::Global;
use std::sync::Wait;
use std::thread::Threads;

/// What a crew counts: the numbers that a query lists over shares, into counts that all passes share.
#[derive(Drop)]
struct Tally<'a> {
    shares: Shares<'a>,
    counts: &'a Segment,
}

/// Each pass counts the numbers of its shares, and behind its stop adds its counts to the shared ones.
impl<'a> Job<Counts> for Tally<'a> {
    ghost use Rattle.fm_workers.specs.Tallies.{CanTally, can_tally_later, tallying};

    ghost can = { λ j. CanTally j.shares j.counts.now };

    ghost making = { λ j. tallying j.shares j.counts.now };

    fn count(&self) -> u32 {
        self.shares.count()
    }

    fn none(&self, _alloc: Global) -> Counts {
        Counts::none()
    }

    /// Refused: `Closed` or `Memory`, also where a sum passes 64 bits.
    fn share<M: Memory>(
        &self,
        alloc: Global,
        m: &mut M,
        number: u32,
        part: &mut Counts,
    ) -> Result<(), Refusal> {
        let share = self.shares.numbered(number);
        let more = count_records(alloc, m, self.shares.query(), &share)?;
        *part = part.sum(&more)?;
        Ok(())
    }

    fn end<M: Memory>(&self, m: &mut M, part: &Counts) -> Result<(), Refusal> {
        add_counts(m, self.counts, part)
    }

    ghost stays = { λ j v u. can_tally_later j.shares j.counts.now };
}

/// The sum of what the passes counted, or `Memory`, where it passes 64 bits.
#[derive(Drop)]
struct Total {
    counts: Result<Counts, Refusal>,
}

impl Whole<Counts> for Total {
    ghost use Rattle.fm_workers.specs.Tallies.{SumsWith};

    ghost joins = { λ behind part whole. SumsWith part behind.counts whole.counts };

    fn join(&mut self, part: Counts) {
        if let Ok(behind) = &self.counts {
            self.counts = part.sum(behind);
        }
    }
}

/// How often each number comes that a query lists over the records of a segment, by so many passes that are drawn for
/// it, each in a thread of its own where one can be started. The query lists one path, of bytes or booleans. The records
/// are cut into at most four shares a pass, and the passes take them from one queue, each share once. Where it is left
/// with none, each pass adds what it counted to `counts`, 256 longs that all of them share: the count of a number below 0
/// stands 256 places further on. The passes are gathered again, after a refusal too; they make all accesses, each a visit
/// with one Read or one Add. Workers are numbered from 1 in the order of the draws. Each share that a worker takes is a
/// call of the gate, counted from 0 for each worker.
///
/// Refused, in this order: `Unsupported`, where the query doesn't list just one path of bytes or booleans; `Ragged`
/// with the number of bytes behind the last whole record; `WrongThread`, exactly where one of the arenas is confined;
/// `Memory`, or `NoPass` where a draw finds no free number, or no draw can be counted any more; then `Closed` or
/// `Memory`, as the first pass was, in the order of the draws, that was refused at a share or an Add. What `counts` then
/// holds is open. Numbers that were drawn are free again, but those of their last term.
pub fn tally_with<R: Threads + Wait + Sync, G: Gate>(
    rt: &R,
    alloc: Global,
    pool: &Pool,
    pass: &mut Pass,
    q: &Query,
    s: &Segment,
    counts: &Segment,
    threads: u32,
    gate: &G,
) -> Result<Counts, Refusal>
    requires { CanTallyWith pool.now pass.old q.now s.now counts.now threads }
    ensures tallied { TalliedWith threads pass.old pass.new q.now s.now counts.now result }
    ensures outside { IsOutside pool.now pass.new }
{
    if !is_tally(q) {
        return Err(Refusal::Unsupported);
    }
    let rest = s.size() % q.record_size();
    if rest != 0 {
        return Err(Refusal::Ragged(rest));
    }
    if s.arena().is_confined() {
        return Err(Refusal::WrongThread);
    }
    if counts.arena().is_confined() {
        return Err(Refusal::WrongThread);
    }
    let tally = Tally {
        shares: Shares::of(q, s, threads),
        counts,
    };
    let crew = Crew {
        rt,
        alloc,
        threads,
        gate,
    };
    let mut total = Total {
        counts: Ok(Counts::none()),
    };
    match share_out(&crew, pool, pass, &tally, &mut total) {
        Ok(()) => total.counts,
        Err(refusal) => Err(refusal),
    }
}

/// Whether the query lists the values of one path alone, which are bytes or booleans.
pub fn is_tally(q: &Query) -> bool
    ensures { MatchBool result (IsTally q.now) (¬ (IsTally q.now)) }
{
    match q.items() {
        [item] => lists_bytes(&item.asked),
        _ => false,
    }
}

fn lists_bytes(asked: &Asked) -> bool
    ensures { MatchBool result (ListsBytes asked.now) (¬ (ListsBytes asked.now)) }
{
    match asked {
        Asked::Of(Fold::All, path) => is_byte(path.value().kind),
        _ => false,
    }
}

fn is_byte(kind: ValueKind) -> bool
    ensures { MatchBool result (IsByteKind kind) (¬ (IsByteKind kind)) }
{
    match kind {
        ValueKind::Byte | ValueKind::Boolean => true,
        ValueKind::Char | ValueKind::Short | ValueKind::Int | ValueKind::Long => false,
    }
}
