ghost use Rattle.std.specs.Prelude.{◌≡◌, ◌≤◌, length, IfOk, IfErr};
ghost use Rattle.fm_io.specs.InMemory.{sure_written};
ghost use Rattle.fm_records.specs.Texts.{answer_text};
ghost use Rattle.fm_c_calls.specs.Held.{IsAnswer, IsNoAnswer, IsNoPlan, IsPlanned, PutsAnswer};

use crate::held::hold;
use crate::output::put_front;
use crate::reading::{read_layout, read_text};
use fm_base::Refusal;
use fm_io::{Fault, SureSink};
use fm_records::{Answer, query_segment, write_answer};
use fm_records_query::{Query, check_record, parse_query};
use fm_top_load::RECORD_FILE_LIMIT;
use std::alloc::Global;

/// Puts the text of what the query that the bytes spell answers over records, of the layout whose JSON those are, as
/// `fmem query` prints it. The records are copied once.
///
/// Refused, in this order: as `layout_from_json` of `fm_ljson`; as `check_record` of `fm_records_query`; `NotText` where
/// the query isn't UTF-8, with the length of its longest front that is; as `parse_query`; `NoRoom` with 0 where there are
/// more than 67,108,864 bytes of records; `Ragged` with the number of bytes behind the last whole record. `Memory` may come
/// at any time. A refused call puts nothing.
pub fn put_answer(
    alloc: Global,
    json: &[u8],
    query: &[u8],
    records: &[u8],
    out: &mut [u8],
) -> Result<u64, Refusal>
    ensures { PutsAnswer json.now query.now records.now out.old out.new result }
{
    let query = read_query(alloc, json, query)?;
    let answer = answer_over(alloc, &query, records)?;
    let text = text_of_answer(alloc, &query, &answer)?;
    Ok(put_front(out, text.written()))
}

/// The query that the bytes spell, over records of the layout whose JSON those are. Refused as `put_answer`.
pub fn read_query(alloc: Global, json: &[u8], query: &[u8]) -> Result<Query, Refusal>
    ensures planned { IfOk result (IsPlanned json.now query.now) }
    ensures refused { IfErr result (IsNoPlan json.now query.now) }
{
    let layout = read_layout(alloc, json)?;
    match check_record(&layout) {
        Ok(()) => {}
        Err(refusal) => return Err(refusal),
    }
    let text = match read_text(query) {
        Ok(text) => text,
        Err(refusal) => return Err(refusal),
    };
    parse_query(alloc, text, &layout)
}

/// What the query answers over these bytes. Refused as `put_answer`.
pub fn answer_over(alloc: Global, query: &Query, records: &[u8]) -> Result<Answer, Refusal>
    ensures answer { IfOk result (IsAnswer query.now records.now) }
    ensures refused { IfErr result (IsNoAnswer query.now records.now) }
{
    if records.len() as u64 > RECORD_FILE_LIMIT {
        return Err(Refusal::NoRoom(0));
    }
    let (mut memory, segment) = hold(alloc, records)?;
    query_segment(alloc, &mut memory, query, &segment)
}

/// The text of the answer. Refused: `Memory`.
pub(crate) fn text_of_answer(
    alloc: Global,
    query: &Query,
    answer: &Answer,
) -> Result<SureSink, Refusal>
    ensures text { IfOk result (λ sink. sure_written sink ≡ answer_text query.now answer.now) }
    ensures memory { IfErr result (λ refusal. refusal ≡ Refusal.Memory) }
{
    let mut text = SureSink::new(alloc);
    match write_answer(alloc, &mut text, query, answer) {
        Ok(()) => Ok(text),
        Err(Fault::Memory) => Err(Refusal::Memory),
        // Nothing fails in memory, and the sink's count of faults stays 0.
        Err(Fault::Failed) => unreachable!(),
    }
}
