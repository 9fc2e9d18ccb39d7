ghost use Rattle.std.specs.Prelude.{◌≡◌, ◌∷◌, [], true, IfSome};
ghost use Rattle.fm_records.specs.Column.{AddsSegment, AddsUnread, AsksOne, IsColumn, IsCounted};
ghost use Rattle.fm_records.specs.Few.{AreFew};
ghost use Rattle.fm_records.specs.Reads.{CanRead};

use crate::found::Found;
use crate::row::{Row, add_row};
use crate::words::Nothing;
use fm_base::{Memory, Refusal};
use fm_path::{Dim, Resolved};
use fm_records_query::{Asked, Query};
use fm_segment::Segment;

/// Whether a query counts records, and all of them.
pub(crate) fn is_count(q: &Query) -> bool
    ensures { result ≡ true → IsCounted q.now }
{
    match (q.conditions(), q.items()) {
        ([], [item]) => matches!(&item.asked, Asked::Count),
        _ => false,
    }
}

/// Adds all records of the segment to a count. None has to be read.
pub(crate) fn add_count(s: &Segment, q: &Query, found: &mut Found)
    requires counted { IsCounted q.now }
    requires few { AreFew 0 q.now (found.old ∷ []) }
    ensures { AddsUnread s.now q.now (found.old ∷ []) (found.new ∷ []) }
{
    found.add_records(s.size() / q.record_size());
}

/// The path of a query that asks one thing of one value in each record.
pub(crate) fn column_of(q: &Query) -> Option<&Resolved>
    ensures { IfSome result (λ path. IsColumn q.now path.now) }
{
    match (q.conditions(), q.items()) {
        ([], [item]) => one_of(&item.asked),
        _ => None,
    }
}

/// The path of which a record has one value.
fn one_of(asked: &Asked) -> Option<&Resolved>
    ensures { IfSome result (λ path. AsksOne asked.now path.now) }
{
    match asked {
        Asked::Count => None,
        Asked::Of(_, path) => {
            if path.dims().wide().is_empty() {
                Some(path)
            } else {
                None
            }
        }
    }
}

/// Adds the values of a column: it is a row of values, one in each record, of which no word is kept.
///
/// Refused: `Closed` at the first value that is read then, or `Memory` at the first number that can't be listed. Then the
/// values before it are added.
#[inline(never)]
pub(crate) fn add_column<M: Memory>(
    m: &mut M,
    s: &Segment,
    q: &Query,
    path: &Resolved,
    found: &mut Found,
) -> Result<(), Refusal>
    requires can { CanRead (M.view m.old) s.now }
    requires column { IsColumn q.now path.now }
    requires few { AreFew 0 q.now (found.old ∷ []) }
    ensures { AddsSegment (M.view m.old) (M.view m.new) s.now q.now (found.old ∷ []) (found.new ∷ []) result }
{
    let size = q.record_size();
    let row = Row {
        place: s.first(),
        at: path.offset(),
        dim: Dim {
            stride: size.cast_signed(),
            bound: s.size() / size,
        },
        value: path.value(),
    };
    add_row(m, s, &row, &mut Nothing, found)
}
