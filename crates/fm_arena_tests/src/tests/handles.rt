ghost use Rattle.std.specs.Prelude.{◌≡◌, ◌≤◌, None};
ghost use Rattle.fm_lanes.specs.Value.{kind_of};
ghost use Rattle.fm_segment.specs.Learnt.{CanUse};

use crate::tests::compared::same;
use crate::tests::segment_calls::fresh;
use fm_base::{Kind, Memory, Refusal};
use fm_handle::VarHandle;
use fm_lanes::{Value, ValueKind};
use fm_layout::Layout;
use fm_path::{parse_path, resolve};
use fm_segment::Segment;
use std::alloc::Global;
use std::process::Abort;
use std::sync::Wait;

/// A handle for a path into a layout.
pub fn handle<R: Abort>(rt: &R, alloc: Global, layout: &Layout, text: &str) -> VarHandle {
    let path = parse_path(alloc, text).expect(rt, "a path");
    VarHandle::of(resolve(alloc, layout, &path).expect(rt, "a value"))
}

/// Two such layouts in a row.
pub fn two<R: Abort>(rt: &R, alloc: Global, layout: Layout) -> Layout {
    Layout::sequence(alloc, 2, layout).expect(rt, "a row")
}

/// A call of a handle. An exchange names what it expects first.
#[derive(Clone, Copy)]
pub enum Call {
    Get,
    Set(Value),
    Add(Value),
    Exchange(Value, Value),
    /// Whether it was put is a boolean.
    SetIf(Value, Value),
    SetLong(i64),
    ExchangeLong(i64, i64),
    AddLong(i64),
}

/// A handle's call on the root at a base, with its indices, and what it is answered: the value found, or put.
pub type Row<'a> = (&'a VarHandle, u64, &'a [u64], Call, Result<Value, Refusal>);

/// Stops where the handle's value is of another kind.
fn holds<R: Abort>(rt: &R, h: &VarHandle, v: Value)
    ensures { kind_of v ≡ h.now.value.kind }
{
    same(rt, v.kind(), h.resolved().value().kind);
}

fn answer<R: Abort + Wait, M: Memory>(
    rt: &R,
    m: &mut M,
    s: &Segment,
    row: &Row,
) -> Result<Value, Refusal>
    requires { CanUse (M.view m.old) s.now }
    ensures { CanUse (M.view m.new) s.now }
{
    let (h, base, indices, call, _) = *row;
    same(rt, indices.len() == h.resolved().dims().len(), true);
    match call {
        Call::Get => h.get(m, s, base, indices),
        Call::Set(v) => {
            holds(rt, h, v);
            h.set(rt, m, s, base, indices, v).and(Ok(v))
        }
        Call::Add(delta) => {
            holds(rt, h, delta);
            h.get_and_add(rt, m, s, base, indices, delta)
        }
        Call::Exchange(expected, v) => {
            holds(rt, h, expected);
            holds(rt, h, v);
            h.compare_and_exchange(rt, m, s, base, indices, expected, v)
        }
        Call::SetIf(expected, v) => {
            holds(rt, h, expected);
            holds(rt, h, v);
            let is_set = h.compare_and_set(rt, m, s, base, indices, expected, v)?;
            Ok(Value::Boolean(is_set))
        }
        Call::SetLong(n) => {
            let set = h.set_long(m, s, base, indices, n);
            set.and(Ok(Value::Long(n)))
        }
        Call::ExchangeLong(expected, n) => {
            let found = h.compare_and_exchange_long(m, s, base, indices, expected, n)?;
            Ok(Value::Long(found))
        }
        Call::AddLong(delta) => {
            let found = h.get_and_add_long(m, s, base, indices, delta)?;
            Ok(Value::Long(found))
        }
    }
}

/// Stops where one of the calls isn't answered so.
pub fn calls<R: Abort + Wait, M: Memory>(rt: &R, m: &mut M, s: &Segment, rows: &[Row])
    requires { CanUse (M.view m.old) s.now }
    ensures { CanUse (M.view m.new) s.now }
{
    for (k, row) in rows.iter().enumerate() {
        same(rt, (k, answer(rt, m, s, row)), (k, row.4));
    }
}

/// What every memory does with an int in a word whose other int others alone change: the int is as this caller leaves
/// it, and the other as they do.
pub fn use_ints<R: Abort + Wait, M: Memory>(
    rt: &R,
    m: &mut M,
    alloc: Global,
    index: u64,
    others: i32,
)
    requires outside { (M.view m.old).inside ≡ None }
    requires index { index ≤ 1 }
    ensures { (M.view m.new).inside ≡ None }
{
    let s = fresh(rt, m, Kind::Shared, 16);
    let layout = two(rt, alloc, two(rt, alloc, Layout::value(ValueKind::Int)));
    let rows = &handle(rt, alloc, &layout, "[][]");
    let row = &handle(rt, alloc, &layout, "[1][]");
    let (both, one, other) = (&[1, index], &[index], &[1, 1 - index]);
    let (four, seven, nine) = (Value::Int(4), Value::Int(7), Value::Int(9));
    let (missed, set) = (Ok(Value::Boolean(false)), Ok(Value::Boolean(true)));
    let table = [
        (rows, 0, both.as_slice(), Call::Set(seven), Ok(seven)),
        (row, 0, one.as_slice(), Call::Add(Value::Int(-3)), Ok(seven)),
        (rows, 0, both.as_slice(), Call::SetIf(seven, nine), missed),
        (rows, 0, both.as_slice(), Call::SetIf(four, nine), set),
        (
            row,
            0,
            one.as_slice(),
            Call::Exchange(four, seven),
            Ok(nine),
        ),
        (
            row,
            0,
            one.as_slice(),
            Call::Exchange(nine, seven),
            Ok(nine),
        ),
        (row, 0, one.as_slice(), Call::Get, Ok(seven)),
        (rows, 0, other.as_slice(), Call::Get, Ok(Value::Int(others))),
    ];
    calls(rt, m, &s, &table);
}

/// What every memory does with a long to which others add `step` before each call on its word.
pub fn use_longs<R: Abort + Wait, M: Memory>(rt: &R, m: &mut M, alloc: Global, step: u32)
    requires outside { (M.view m.old).inside ≡ None }
    requires small { step ≤ 1 }
    ensures { (M.view m.new).inside ≡ None }
{
    let step = i64::from(step);
    let s = fresh(rt, m, Kind::Shared, 32);
    let layout = two(rt, alloc, two(rt, alloc, Layout::value(ValueKind::Long)));
    let long = &handle(rt, alloc, &layout, "[][]");
    let at = [1, 0];
    let at = at.as_slice();
    let table = [
        (long, 0, at, Call::SetLong(7), Ok(Value::Long(7))),
        (long, 0, at, Call::Get, Ok(Value::Long(7 + step))),
        (
            long,
            0,
            at,
            Call::ExchangeLong(0, 5),
            Ok(Value::Long(7 + 2 * step)),
        ),
        (
            long,
            0,
            at,
            Call::AddLong(-20),
            Ok(Value::Long(7 + 3 * step)),
        ),
        (long, 0, at, Call::Get, Ok(Value::Long(4 * step - 13))),
    ];
    calls(rt, m, &s, &table);
}

/// What every memory does with a value of an arena that is confined to another caller, be it an int or a long that fills
/// a word, and with calls that are refused before.
pub fn use_values_of_another<R: Abort + Wait, M: Memory>(
    rt: &R,
    m: &mut M,
    alloc: Global,
    s: &Segment,
)
    requires { CanUse (M.view m.old) s.now }
    ensures { CanUse (M.view m.new) s.now }
{
    let layout = two(rt, alloc, two(rt, alloc, Layout::value(ValueKind::Int)));
    let int = &handle(rt, alloc, &layout, "[][]");
    let long = &handle(rt, alloc, &Layout::value(ValueKind::Long), ".");
    let at = [0, 1];
    let (at, none) = (at.as_slice(), [].as_slice());
    let (v, refused) = (Value::Int(7), Err(Refusal::WrongThread));
    let table = [
        (int, 0, at, Call::Get, refused),
        (int, 0, at, Call::Set(v), refused),
        (int, 0, at, Call::Add(v), refused),
        (int, 0, at, Call::SetIf(v, v), refused),
        (int, 0, at, Call::Exchange(v, v), refused),
        (long, 0, none, Call::SetLong(7), refused),
        (long, 12, none, Call::SetLong(7), Err(Refusal::Bounds)),
        (long, 4, none, Call::SetLong(7), Err(Refusal::Misaligned)),
        (long, 0, none, Call::ExchangeLong(0, 5), refused),
        (long, 0, none, Call::AddLong(-20), refused),
    ];
    calls(rt, m, s, &table);
}
