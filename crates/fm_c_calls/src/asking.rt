ghost use Rattle.std.specs.Prelude.{◌≡◌, None, Some};
ghost use Rattle.fm_c_calls.specs.Asked.{MakesQuery, PutsKept};
ghost use Rattle.fm_c_calls.specs.Kept.{Keeps};

use crate::answering::{answer_over, read_query, text_of_answer};
use crate::handle::Handle;
use crate::output::put_front;
use fm_base::Refusal;
use fm_records_query::Query;
use std::alloc::Global;

/// Keeps the query that the bytes spell, over records of the layout whose JSON those are. What the handle kept before isn't
/// freed.
///
/// Refused: as `read_query`. A refused call leaves the handle as it was.
pub fn make_query(
    alloc: Global,
    json: &[u8],
    query: &[u8],
    handle: &mut Handle,
) -> Result<u64, Refusal>
    ensures { MakesQuery json.now query.now handle.old.query handle.new.query result }
{
    let query = read_query(alloc, json, query)?;
    match Box::new(alloc, query) {
        Ok(query) => {
            *handle = Handle::of(query);
            Ok(0)
        }
        Err(_) => Err(Refusal::Memory),
    }
}

/// Puts the text of what the kept query answers over records, as `put_answer`, without reading it anew.
///
/// Refused, in this order: `NoRoom` with 0 where there are more than 67,108,864 bytes of records; `Ragged` with the number of
/// bytes behind the last whole record. `Memory` may come at any time. A refused call puts nothing.
pub fn ask_query(
    alloc: Global,
    handle: &mut Handle,
    records: &[u8],
    out: &mut [u8],
) -> Result<u64, Refusal>
    requires { Keeps handle.old.query }
    ensures kept { handle.new.query ≡ handle.old.query }
    ensures text { PutsKept handle.old.query records.now out.old out.new result }
{
    let query = handle.take(alloc);
    let came = put_answer_of(alloc, &query, records, out);
    *handle = Handle::of(query);
    came
}

/// Frees the kept query; from here on the handle keeps none.
pub fn free_query(alloc: Global, handle: &mut Handle)
    requires { Keeps handle.old.query }
    ensures { handle.new.query ≡ None }
{
    drop(handle.take(alloc));
}

fn put_answer_of(
    alloc: Global,
    query: &Query,
    records: &[u8],
    out: &mut [u8],
) -> Result<u64, Refusal>
    ensures { PutsKept (Some query.now) records.now out.old out.new result }
{
    let answer = answer_over(alloc, query, records)?;
    let text = text_of_answer(alloc, query, &answer)?;
    Ok(put_front(out, text.written()))
}
