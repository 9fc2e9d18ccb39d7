ghost use Rattle.std.specs.Prelude.{◌≡◌, ◌<◌, None, IfOk};
ghost use Rattle.fm_layout.specs.Parts.{IsValue};
ghost use Rattle.fm_bench_shared.specs.Ready.{CanAccess};

use fm_base::{Kind, Memory, Refusal};
use fm_lanes::{Value, ValueKind};
use fm_layout::{Form, Layout};
use fm_ljson::layout_from_json;
use fm_segment::Segment;
use std::alloc::Global;
use std::sync::Wait;

/// The rows of the table whose cells are got.
pub const ROWS: u64 = 512;

/// The longs of a row.
pub const COLUMNS: u64 = 16;

/// What a cell holds: its number times another, modulo a prime.
pub fn number(cell: u64, times: u64) -> u64
    ensures { result < 1_000_003 }
{
    cell.wrapping_mul(times) % 1_000_003
}

/// A table in an arena of its own.
pub fn table<R: Wait, M: Memory>(rt: &R, m: &mut M, times: u64) -> Result<Segment, Refusal>
    requires { (M.view m.old).inside ≡ None }
    ensures { IfOk result (λ cells. CanAccess (M.view m.new) cells) }
{
    let arena = m.open_arena(rt, Kind::Shared)?;
    let first = m.allocate(rt, arena, 8 * ROWS * COLUMNS, 8)?;
    let table = Segment::of(arena, first, 8 * ROWS * COLUMNS);
    let long = Layout::value(ValueKind::Long);
    for cell in 0..ROWS * COLUMNS {
        let v = Value::Long(number(cell, times) as i64);
        table.set(rt, m, &long, 8 * cell, v)?;
    }
    Ok(table)
}

/// The layout of a value that the text stands for, as JSON. Refused: `NotValue`, else as `layout_from_json`.
pub fn value_of(alloc: Global, text: &str) -> Result<Layout, Refusal>
    ensures { IfOk result (λ layout. IsValue layout) }
{
    let layout = layout_from_json(alloc, text.as_bytes())?;
    match layout.form() {
        Form::Value(_, _) => Ok(layout),
        _ => Err(Refusal::NotValue),
    }
}
