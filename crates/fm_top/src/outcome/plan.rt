ghost use Rattle.std.specs.Prelude.{◌≢◌, IfErr, IfOk};
ghost use Rattle.fm_records_query.specs.Records.{IsRecord};
ghost use Rattle.fm_top.specs.Queries.{IsPlanned, IsUnplanned};
ghost use Rattle.fm_top.specs.Tallies.{IsPathRefused, IsTallied};

use crate::command::Question;
use fm_base::Refusal;
use fm_layout::Layout;
use fm_records_query::{Query, parse_list, parse_query};
use fm_workers::is_tally;
use std::alloc::Global;

/// What was read of a question: the query that its text comes to, which a pool answers over the records of the file, with
/// so many threads.
#[derive(Drop)]
pub struct PoolPlan<'a> {
    pub file: &'a str,
    pub question: Question,
    pub threads: u64,
    pub query: Query,
}

/// The query that this text comes to: it is a query's, or that of a path whose values are counted.
///
/// Refused: as `parse_query`; as `parse_list`, and then `Unsupported` where the path leads to no bytes or booleans.
pub fn plan_for(
    alloc: Global,
    question: Question,
    text: &str,
    layout: &Layout,
) -> Result<Query, Refusal>
    requires { IsRecord layout.now }
    ensures planned { IfOk result (IsPlanned question text.now layout.now) }
    ensures refused { IfErr result (λ e.
        e ≢ Refusal.Memory → IsUnplanned question text.now layout.now e) }
{
    match question {
        Question::Query | Question::Stream => parse_query(alloc, text, layout),
        Question::Tally => parse_tally(alloc, text, layout),
    }
}

/// The query that lists the bytes or booleans of the path of this text.
fn parse_tally(alloc: Global, text: &str, layout: &Layout) -> Result<Query, Refusal>
    requires { IsRecord layout.now }
    ensures tallied { IfOk result (IsTallied text.now layout.now) }
    ensures refused { IfErr result (λ e. e ≢ Refusal.Memory → IsPathRefused text.now layout.now e) }
{
    let list = parse_list(alloc, text, layout)?;
    if is_tally(&list) {
        Ok(list)
    } else {
        Err(Refusal::Unsupported)
    }
}
