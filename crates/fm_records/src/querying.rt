ghost use Rattle.std.specs.Prelude.{◌≡◌, List, ◌∷◌, [], ◌≤◌, true, false, length};
ghost use Rattle.std.specs.List.{AllByRecursion, AllZip};
ghost use Rattle.fm_records.specs.Answers as answers;
ghost use Rattle.fm_records.specs.Few.{HasRoom, IsOpen};
ghost use Rattle.fm_records.specs.Adds.{AddsItem, AddsItems, IsItemReadable, IsTestable, ReachesInside};
ghost use Rattle.fm_records.specs.Reads.{CanRead, Sees, Tests, TestsConditions, or_closed};
ghost use Rattle.fm_records.specs.Paths.{HasIndices};
ghost use Rattle.fm_records.specs.Rows.{AddsRows};
ghost use Rattle.fm_records.specs.Values.{index_lists};
ghost use Rattle.fm_records.specs.Words.{Seen, kept_last};

use crate::found::Found;
use crate::row::{Row, add_row, add_rows};
use crate::values::number_at;
use crate::words::{Kept, Last};
use fm_base::{Memory, Refusal};
use fm_path::Dim;
use fm_records_query::{Asked, Condition, Item, Operator};
use fm_segment::Segment;

/// Whether all conditions hold for the record at a place. Those behind the first that fails aren't tested. None where the
/// arena is found closed.
#[inline(always)]
pub(crate) fn chooses<M: Memory>(
    m: &mut M,
    s: &Segment,
    place: u64,
    conditions: &[Condition],
    kept: &mut Kept,
) -> Option<bool>
    requires can { CanRead (M.view m.old) s.now }
    requires testable { AllByRecursion (IsTestable s.now place) conditions.now }
    ensures { Sees (M.view m.old) (M.view m.new) s.now
        (λ r own. TestsConditions place kept.old conditions.now r own kept.new) (or_closed result) }
{
    for condition in conditions {
        match holds_at(m, s, place, condition, kept) {
            Some(true) => {}
            Some(false) => return Some(false),
            None => return None,
        }
    }
    Some(true)
}

/// Whether a condition holds for the record at a place; none where the arena is found closed.
#[inline(always)]
fn holds_at<M: Memory>(
    m: &mut M,
    s: &Segment,
    place: u64,
    condition: &Condition,
    kept: &mut Kept,
) -> Option<bool>
    requires can { CanRead (M.view m.old) s.now }
    requires testable { IsTestable s.now place condition.now }
    ensures { Sees (M.view m.old) (M.view m.new) s.now
        (λ r own. Tests place kept.old condition.now r own kept.new) (or_closed result) }
{
    let at = place + condition.path.offset();
    match number_at(m, s, at, condition.path.value(), kept) {
        Some(number) => Some(compares(condition.operator, number, condition.literal)),
        None => None,
    }
}

fn compares(operator: Operator, x: i64, y: i64) -> bool
    ensures { result ≡ answers.compares operator x y }
{
    match operator {
        Operator::Equal => x == y,
        Operator::NotEqual => x != y,
        Operator::Below => x < y,
        Operator::AtMost => x <= y,
        Operator::Above => x > y,
        Operator::AtLeast => x >= y,
    }
}

/// Adds what the items find in the record at a place: their values are read in the order of the items and of index
/// lists. A word that is kept isn't read again.
///
/// Refused: `Closed` at the first value that is read then, or `Memory` at the first number that can't be listed. Then what
/// the values before it come to is added.
#[inline(always)]
pub(crate) fn add_items<M: Memory>(
    m: &mut M,
    s: &Segment,
    place: u64,
    items: &[Item],
    kept: &mut Kept,
    found: &mut [Found],
) -> Result<(), Refusal>
    requires can { CanRead (M.view m.old) s.now }
    requires readable { AllByRecursion (IsItemReadable s.now place) items.now }
    requires open { AllZip IsOpen items.now found.old }
    ensures { Sees (M.view m.old) (M.view m.new) s.now
        (AddsItems place kept.old items.now found.old found.new kept.new) result }
{
    for k in 0..items.len() {
        add_item(m, s, place, &items[k], kept, &mut found[k])?;
    }
    Ok(())
}

/// Adds what an item finds in a chosen record.
#[inline(always)]
fn add_item<M: Memory>(
    m: &mut M,
    s: &Segment,
    place: u64,
    item: &Item,
    kept: &mut Kept,
    found: &mut Found,
) -> Result<(), Refusal>
    requires can { CanRead (M.view m.old) s.now }
    requires readable { IsItemReadable s.now place item.now }
    requires open { IsOpen item.now found.old }
    ensures { Sees (M.view m.old) (M.view m.new) s.now
        (AddsItem place kept.old item.now.asked found.old found.new kept.new) result }
{
    match &item.asked {
        Asked::Count => {
            found.add_records(1);
            Ok(())
        }
        Asked::Of(_, path) => match path.dims().wide() {
            [] => match number_at(m, s, place + path.offset(), path.value(), kept) {
                Some(number) => found.add_number(number),
                None => Err(Refusal::Closed),
            },
            [dim, dims @ ..] => {
                let row = Row {
                    place,
                    at: path.offset(),
                    dim: *dim,
                    value: path.value(),
                };
                add_open(m, s, &row, dims, found)
            }
        },
    }
}

/// Adds the values of a path with open steps, which may be none. It keeps its own last two words in place of the
/// record's.
#[inline(always)]
fn add_open<M: Memory>(
    m: &mut M,
    s: &Segment,
    row: &Row<'_>,
    dims: &[Dim],
    found: &mut Found,
) -> Result<(), Refusal>
    requires can { CanRead (M.view m.old) s.now }
    requires inside { ReachesInside s.now row.now.place row.now.at (row.now.dim ∷ dims.now) row.now.value.now }
    requires room { HasRoom found.old (length (index_lists (row.now.dim ∷ dims.now))) }
    ensures { (last : List Seen) × AddsRows kept_last (M.view m.old) (M.view m.new) s.now row.now dims.now
        [] last found.old found.new result }
{
    if dims.is_empty() {
        return add_row(m, s, row, &mut Last::None, found);
    }
    add_many_rows(m, s, row, dims, found)
}

/// The same of several rows. It isn't inlined, so that other paths pay nothing for it.
#[inline(never)]
fn add_many_rows<M: Memory>(
    m: &mut M,
    s: &Segment,
    row: &Row<'_>,
    dims: &[Dim],
    found: &mut Found,
) -> Result<(), Refusal>
    requires can { CanRead (M.view m.old) s.now }
    requires some { 1 ≤ length dims.now }
    requires inside { ReachesInside s.now row.now.place row.now.at (row.now.dim ∷ dims.now) row.now.value.now }
    requires room { HasRoom found.old (length (index_lists (row.now.dim ∷ dims.now))) }
    ensures { (last : List Seen) × AddsRows kept_last (M.view m.old) (M.view m.new) s.now row.now dims.now
        [] last found.old found.new result }
{
    if has_no_values(dims) {
        return Ok(());
    }
    add_rows(m, s, row, dims, &mut Last::None, found)
}

/// Whether a bound is 0: then no indices are admitted.
fn has_no_values(dims: &[Dim]) -> bool
    ensures none { result ≡ true → index_lists dims.now ≡ [] }
    ensures some { result ≡ false → HasIndices dims.now }
{
    match dims {
        [] => false,
        [dim, rest @ ..] => dim.bound == 0 || has_no_values(rest),
    }
}
