ghost use Rattle.fm_records.specs.Few.{AreFew};
ghost use Rattle.fm_records.specs.Column.{AddsSegment};
ghost use Rattle.fm_records.specs.Learnt.{CanQuery, Queried};
ghost use Rattle.fm_records.specs.Reads.{CanRead};

use crate::answer::{Answer, of_no_records};
use crate::column::{add_column, add_count, column_of, is_count};
use crate::found::Found;
use crate::record::add_record;
use crate::words::Kept;
use fm_base::{Memory, Refusal};
use fm_records_query::Query;
use fm_segment::Segment;
use fm_segment_access::may_use;
use std::alloc::Global;

/// What a query answers over the records of a segment: for each record its conditions are tested in order, and where
/// all hold its items' values are read. Each word of a record is read once, in a visit of its own, and each word of a row
/// of values once a row; nothing is held between visits: others may write between them.
///
/// Refused, in this order: `Ragged` with the number of bytes behind the last whole record; `WrongThread`, also where no
/// value would be read; then `Closed` at the first word that is read then, or `Memory`.
pub fn query_segment<M: Memory>(
    alloc: Global,
    m: &mut M,
    q: &Query,
    s: &Segment,
) -> Result<Answer, Refusal>
    requires { CanQuery (M.view m.old) q.now s.now }
    ensures { Queried (M.view m.old) (M.view m.new) q.now s.now result }
{
    let rest = s.size() % q.record_size();
    if rest != 0 {
        return Err(Refusal::Ragged(rest));
    }
    if !may_use(m, s.arena()) {
        return Err(Refusal::WrongThread);
    }
    let mut found = of_no_records(alloc, q)?.into_found();
    add_records(m, s, q, found.as_mut_slice())?;
    Ok(Answer::of(found))
}

/// Adds what the items find in the chosen ones of the segment's records.
///
/// Refused: `Closed` at the first value that is read then, or `Memory` at the first number that can't be listed. Then what
/// the values before it come to is added.
fn add_records<M: Memory>(
    m: &mut M,
    s: &Segment,
    q: &Query,
    found: &mut [Found],
) -> Result<(), Refusal>
    requires can { CanRead (M.view m.old) s.now }
    requires few { AreFew 0 q.now found.old }
    ensures { AddsSegment (M.view m.old) (M.view m.new) s.now q.now found.old found.new result }
{
    if is_count(q) {
        add_count(s, q, &mut found[0]);
        return Ok(());
    }
    if let Some(path) = column_of(q) {
        return add_column(m, s, q, path, &mut found[0]);
    }
    add_each(m, s, q, found)
}

/// The same record by record.
fn add_each<M: Memory>(
    m: &mut M,
    s: &Segment,
    q: &Query,
    found: &mut [Found],
) -> Result<(), Refusal>
    requires can { CanRead (M.view m.old) s.now }
    requires few { AreFew 0 q.now found.old }
    ensures { AddsSegment (M.view m.old) (M.view m.new) s.now q.now found.old found.new result }
{
    let size = q.record_size();
    let count = s.size() / size;
    let mut kept = Kept::none();
    let mut place = s.first();
    for _ in 0..count {
        add_record(m, s, place, q, &mut kept, found)?;
        place += size;
    }
    Ok(())
}
