ghost use Rattle.std.specs.Prelude.{◌≡◌, IfOk};
ghost use Rattle.fm_lanes.specs.Value.{kind_of};
ghost use Rattle.fm_visit.specs.Handles.{CanCall, CanPut, CanExchange, AfterGetBy, AfterSetBy, AfterExchange, AfterCompareAndSet, AfterAdd};

use crate::value::{get_value, put_value};
use fm_base::{Memory, Refusal};
use fm_handle::{Support, VarHandle, add_inside, exchange_inside, is_same};
use fm_lanes::Value;
use fm_segment::Segment;
use std::sync::Wait;

/// Reads the value at these indices of the layout at the base, as `VarHandle::get` does. The caller is inside the
/// segment's arena.
///
/// Refused, in this order: `IndexOut`, `Bounds`, `Misaligned`.
#[inline(always)]
pub fn get_by<M: Memory>(
    m: &mut M,
    handle: &VarHandle,
    s: &Segment,
    base: u64,
    indices: &[u64],
) -> Result<Value, Refusal>
    requires { CanCall (M.view m.old) s.now.arena handle.now s.now indices.now }
    ensures got { AfterGetBy (M.view m.old) (M.view m.new) handle.now s.now base indices.now result }
    ensures kind { IfOk result (λ v. kind_of v ≡ handle.now.value.kind) }
{
    let place = handle.place_of(s, base, indices)?;
    let value = handle.resolved().value();
    Ok(get_value(m, s.arena(), place, value.kind, value.order))
}

/// Puts `v` as the value at these indices of the layout at the base, as `VarHandle::set` does. Other bytes stay. The
/// caller is inside the segment's arena.
///
/// Refused, in this order: `IndexOut`, `ReadOnly`, `Bounds`, `Misaligned`.
pub fn set_by<R: Wait, M: Memory>(
    rt: &R,
    m: &mut M,
    handle: &VarHandle,
    s: &Segment,
    base: u64,
    indices: &[u64],
    v: Value,
) -> Result<(), Refusal>
    requires { CanPut (M.view m.old) s.now.arena handle.now s.now indices.now v }
    ensures { AfterSetBy (M.view m.old) (M.view m.new) handle.now s.now base indices.now v result }
{
    let place = handle.writable_place_of(s, base, indices)?;
    let order = handle.resolved().value().order;
    put_value(rt, m, s.arena(), place, order, v);
    Ok(())
}

/// Puts `v` where the value is `expected`, and answers whether it was, as `VarHandle::compare_and_set` does. The caller
/// is inside the segment's arena.
///
/// Refused, in this order: `Unsupported` where the value is no int or long or its alignment is below its size,
/// `IndexOut`, `ReadOnly`, `Bounds`, `Misaligned`. A refused call changes nothing.
pub fn compare_and_set<R: Wait, M: Memory>(
    rt: &R,
    m: &mut M,
    handle: &VarHandle,
    s: &Segment,
    base: u64,
    indices: &[u64],
    expected: Value,
    v: Value,
) -> Result<bool, Refusal>
    requires { CanExchange (M.view m.old) s.now.arena handle.now s.now indices.now expected v }
    ensures { AfterCompareAndSet (M.view m.old) (M.view m.new) handle.now s.now base indices.now expected v result }
{
    let found = compare_and_exchange(rt, m, handle, s, base, indices, expected, v)?;
    Ok(is_same(found, expected))
}

/// Puts `v` where the value is `expected`, and answers the value found. The caller is inside the segment's arena.
///
/// Refused as `compare_and_set` is. A refused call changes nothing.
pub fn compare_and_exchange<R: Wait, M: Memory>(
    rt: &R,
    m: &mut M,
    handle: &VarHandle,
    s: &Segment,
    base: u64,
    indices: &[u64],
    expected: Value,
    v: Value,
) -> Result<Value, Refusal>
    requires { CanExchange (M.view m.old) s.now.arena handle.now s.now indices.now expected v }
    ensures exchanged { AfterExchange (M.view m.old) (M.view m.new) handle.now s.now base indices.now
        expected v result }
    ensures kind { IfOk result (λ v. kind_of v ≡ handle.now.value.kind) }
{
    let place = handle.update_place_of(Support::Number, s, base, indices)?;
    let order = handle.resolved().value().order;
    Ok(exchange_inside(rt, m, s.arena(), place, order, expected, v))
}

/// Adds `delta` to the value, wrapping in its width, and answers the value found. The caller is inside the segment's
/// arena.
///
/// Refused as `compare_and_set` is. A refused call changes nothing.
pub fn get_and_add<R: Wait, M: Memory>(
    rt: &R,
    m: &mut M,
    handle: &VarHandle,
    s: &Segment,
    base: u64,
    indices: &[u64],
    delta: Value,
) -> Result<Value, Refusal>
    requires { CanPut (M.view m.old) s.now.arena handle.now s.now indices.now delta }
    ensures added { AfterAdd (M.view m.old) (M.view m.new) handle.now s.now base indices.now delta result }
    ensures kind { IfOk result (λ v. kind_of v ≡ handle.now.value.kind) }
{
    let place = handle.update_place_of(Support::Number, s, base, indices)?;
    let order = handle.resolved().value().order;
    Ok(add_inside(rt, m, s.arena(), place, order, delta))
}
