ghost use Rattle.std.specs.Prelude.{◌≡◌, None, IfOk, length};
ghost use Rattle.fm_layout.specs.Parts.{IsValue};
ghost use Rattle.fm_bench_shared.specs.Ready.{CanAccess};

use crate::memories::Asked;
use crate::table::{COLUMNS, ROWS, table, value_of};
use fm_base::{Memory, Refusal};
use fm_handle::VarHandle;
use fm_lanes::{ValueKind, encode};
use fm_layout::Layout;
use fm_path::{parse_path, resolve};
use fm_segment::Segment;
use std::alloc::Global;
use std::sync::Wait;

/// Gets values of a table by the loop of this name, so often, and answers them joined by exclusive or; what was found says
/// which is next.
pub fn cells<R: Wait, M: Memory>(
    rt: &R,
    alloc: Global,
    m: &mut M,
    asked: &Asked,
) -> Result<u64, Refusal>
    requires { (M.view m.old).inside ≡ None }
{
    let cells = table(rt, m, asked.count)?;
    match asked.what.as_str() {
        "known" => known(m, &cells, asked.count),
        "gets" => gets(m, &cells, &value_of(alloc, &asked.text)?, asked.count),
        _ => handles(m, &cells, &handle_of(alloc, &asked.text)?, asked.count),
    }
}

/// Longs, at offsets in the segment. The compiler knows their layout.
fn known<M: Memory>(m: &mut M, cells: &Segment, count: u64) -> Result<u64, Refusal>
    requires { CanAccess (M.view m.old) cells.now }
{
    let long = Layout::value(ValueKind::Long);
    let mut joined: u64 = 0;
    for turn in 0..count {
        let cell = joined.wrapping_add(turn) % (ROWS * COLUMNS);
        joined ^= encode(cells.get(m, &long, 8 * cell)?);
    }
    Ok(joined)
}

/// Values whose layout is read from a text, when the loop runs.
fn gets<M: Memory>(m: &mut M, cells: &Segment, value: &Layout, count: u64) -> Result<u64, Refusal>
    requires can { CanAccess (M.view m.old) cells.now }
    requires value { IsValue value.now }
{
    let size = value.size();
    let mut joined: u64 = 0;
    for turn in 0..count {
        let cell = joined.wrapping_add(turn) % (ROWS * COLUMNS);
        joined ^= encode(cells.get(m, value, size * cell)?);
    }
    Ok(joined)
}

/// The same through a handle, by row and column.
fn handles<M: Memory>(
    m: &mut M,
    cells: &Segment,
    handle: &VarHandle,
    count: u64,
) -> Result<u64, Refusal>
    requires can { CanAccess (M.view m.old) cells.now }
    requires steps { length handle.now.dims ≡ 2 }
{
    let mut joined: u64 = 0;
    for turn in 0..count {
        let cell = joined.wrapping_add(turn) % (ROWS * COLUMNS);
        let indices = [cell / COLUMNS, cell % COLUMNS];
        joined ^= encode(handle.get(m, cells, 0, &indices)?);
    }
    Ok(joined)
}

/// The handle of a table's values, whose layout the text stands for.
pub fn handle_of(alloc: Global, text: &str) -> Result<VarHandle, Refusal>
    ensures { IfOk result (λ handle. length handle.dims ≡ 2) }
{
    let rows = rows_of(alloc, text)?;
    let path = parse_path(alloc, "[][]")?;
    let handle = VarHandle::of(resolve(alloc, &rows, &path)?);
    if handle.resolved().dims().len() == 2 {
        Ok(handle)
    } else {
        Err(Refusal::NotValue)
    }
}

/// The layout of a table of values whose layout the text stands for.
fn rows_of(alloc: Global, text: &str) -> Result<Layout, Refusal> {
    let row = Layout::sequence(alloc, COLUMNS, value_of(alloc, text)?)?;
    Layout::sequence(alloc, ROWS, row)
}
