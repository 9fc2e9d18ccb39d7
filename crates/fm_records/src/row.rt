ghost use Rattle.std.specs.Prelude.{◌≡◌, [], ◌≤◌, length};
ghost use Rattle.fm_path_meaning.specs.Steady.{IsInside};
ghost use Rattle.fm_path_meaning.specs.Walk.{reach};
ghost use Rattle.fm_records.specs.Rows.{AddsRows, CanAddRows, words_of};
ghost use Rattle.fm_records.specs.Words.{kept_last};

use crate::adder::{Adder, Greatest, Least, Total};
use crate::found::Found;
use crate::values::number_as;
use crate::words::{Keep, Last};
use fm_base::{Memory, Refusal};
use fm_lanes::ValueKind;
use fm_path::{Dim, ValueSpec};
use fm_segment::Segment;

/// Values side by side, one for each index of a dim: those of an open step in a record, or of one path in each record.
#[derive(Clone, Copy)]
pub(crate) struct Row<'a> {
    /// Where the record begins, the first one where there are several.
    pub place: u64,
    /// The offset there of the value at index 0.
    pub at: u64,
    pub dim: Dim,
    pub value: &'a ValueSpec,
}

/// Adds a row's numbers. What is asked, and of which kind they are, is told apart before the first is read.
///
/// Refused: `Closed` at the first value that is read then, or `Memory` at the first number that can't be listed. Then the
/// numbers before it are added.
#[inline(always)]
pub(crate) fn add_row<M: Memory, K: Keep>(
    m: &mut M,
    s: &Segment,
    row: &Row<'_>,
    kept: &mut K,
    found: &mut Found,
) -> Result<(), Refusal>
    requires { CanAddRows (M.view m.old) s.now row.now [] found.old }
    ensures { AddsRows K.keeps (M.view m.old) (M.view m.new) s.now row.now [] (K.kept kept.old) (K.kept kept.new)
        found.old found.new result }
{
    // A copy, so that each loop has it in registers.
    let copy = *row;
    match found {
        Found::Count(_) => add_row_to(m, s, row, kept, found),
        Found::Sum(sum) => {
            let mut total = Total { sum: *sum };
            let result = add_row_to(m, s, &copy, kept, &mut total);
            *sum = total.sum;
            result
        }
        Found::Least(least) => {
            let mut end = Least { least: *least };
            let result = add_row_to(m, s, &copy, kept, &mut end);
            *least = end.least;
            result
        }
        Found::Greatest(greatest) => {
            let mut end = Greatest {
                greatest: *greatest,
            };
            let result = add_row_to(m, s, &copy, kept, &mut end);
            *greatest = end.greatest;
            result
        }
        Found::Listed(numbers) => add_row_to(m, s, &copy, kept, numbers),
    }
}

/// The same by what is asked.
#[inline]
fn add_row_to<M: Memory, K: Keep, A: Adder>(
    m: &mut M,
    s: &Segment,
    row: &Row<'_>,
    kept: &mut K,
    adder: &mut A,
) -> Result<(), Refusal>
    requires { CanAddRows (M.view m.old) s.now row.now [] (A.found adder.old) }
    ensures { AddsRows K.keeps (M.view m.old) (M.view m.new) s.now row.now [] (K.kept kept.old) (K.kept kept.new)
        (A.found adder.old) (A.found adder.new) result }
{
    match row.value.kind {
        ValueKind::Byte => add_row_as(m, s, row, ValueKind::Byte, kept, adder),
        ValueKind::Boolean => add_row_as(m, s, row, ValueKind::Boolean, kept, adder),
        ValueKind::Char => add_row_as(m, s, row, ValueKind::Char, kept, adder),
        ValueKind::Short => add_row_as(m, s, row, ValueKind::Short, kept, adder),
        ValueKind::Int => add_row_as(m, s, row, ValueKind::Int, kept, adder),
        ValueKind::Long => add_row_as(m, s, row, ValueKind::Long, kept, adder),
    }
}

/// The loop for one kind.
#[inline(always)]
fn add_row_as<M: Memory, K: Keep, A: Adder>(
    m: &mut M,
    s: &Segment,
    row: &Row<'_>,
    kind: ValueKind,
    kept: &mut K,
    adder: &mut A,
) -> Result<(), Refusal>
    requires can { CanAddRows (M.view m.old) s.now row.now [] (A.found adder.old) }
    requires kind { kind ≡ row.now.value.now.kind }
    ensures { AddsRows K.keeps (M.view m.old) (M.view m.new) s.now row.now [] (K.kept kept.old) (K.kept kept.new)
        (A.found adder.old) (A.found adder.new) result }
{
    for i in 0..row.dim.bound {
        let place = row.place + reach_of(row.at, row.dim, i);
        match number_as(m, s, place, kind, row.value, kept) {
            Some(number) => adder.add(number)?,
            None => return Err(Refusal::Closed),
        }
    }
    Ok(())
}

/// Adds the numbers of a row, or of a row of rows: one for each list of indices, the last index changing fastest.
///
/// Refused: as at `add_row`.
#[cycle(adding)]
#[inline(always)]
fn add_all<M: Memory>(
    m: &mut M,
    s: &Segment,
    row: &Row<'_>,
    dims: &[Dim],
    last: &mut Last,
    found: &mut Found,
) -> Result<(), Refusal>
    requires { CanAddRows (M.view m.old) s.now row.now dims.now found.old }
    ensures { AddsRows kept_last (M.view m.old) (M.view m.new) s.now row.now dims.now (words_of last.old) (words_of last.new)
        found.old found.new result }
{
    if dims.is_empty() {
        return add_row_to(m, s, row, last, found);
    }
    add_rows(m, s, row, dims, last, found)
}

/// The same of a row of rows.
#[cycle(adding)]
pub(crate) fn add_rows<M: Memory>(
    m: &mut M,
    s: &Segment,
    row: &Row<'_>,
    dims: &[Dim],
    last: &mut Last,
    found: &mut Found,
) -> Result<(), Refusal>
    requires can { CanAddRows (M.view m.old) s.now row.now dims.now found.old }
    requires some { 1 ≤ length dims.now }
    ensures { AddsRows kept_last (M.view m.old) (M.view m.new) s.now row.now dims.now (words_of last.old) (words_of last.new)
        found.old found.new result }
{
    for i in 0..row.dim.bound {
        let next = Row {
            at: reach_of(row.at, row.dim, i),
            dim: dims[0],
            ..*row
        };
        add_all(m, s, &next, &dims[1..], last, found)?;
    }
    Ok(())
}

/// The offset an index further on, or back.
fn reach_of(at: u64, dim: Dim, index: u64) -> u64
    requires { IsInside at dim.stride index }
    ensures { result ≡ reach at dim.stride index }
{
    at.wrapping_add(dim.stride.cast_unsigned().wrapping_mul(index))
}
