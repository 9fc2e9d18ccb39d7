ghost use Rattle.fm_rule_calls.specs.Told.{view_of_pass};
ghost use Rattle.fm_workers_chunks.specs.Answering.{AnsweredAndClosed, CanAnswer};

use fm_arena::Shared;
use fm_base::{Memory, Refusal};
use fm_records::{Answer, query_segment};
use fm_records_query::Query;
use fm_segment::Segment;
use std::alloc::Global;
use std::sync::Wait;

/// What a query answers over a segment of whole records in a shared arena, which is closed behind that, and wiped.
///
/// Refused, in this order: `Closed` or `Memory` at the query, which leaves the arena open; `Closed` or `Held` at the
/// close.
pub(crate) fn answer_and_close<R: Wait>(
    rt: &R,
    alloc: Global,
    memory: &mut Shared,
    q: &Query,
    s: &Segment,
) -> Result<Answer, Refusal>
    requires { CanAnswer (view_of_pass memory.old) q.now s.now }
    ensures { AnsweredAndClosed memory.old memory.new q.now s.now result }
{
    let answer = match query_segment(alloc, memory, q, s) {
        Ok(answer) => answer,
        Err(refusal) => return Err(refusal),
    };
    match memory.close(rt, s.arena()) {
        Ok(()) => Ok(answer),
        Err(refusal) => Err(refusal),
    }
}
