//! Values by a handle, of a segment of 28 bytes whose word at the offset 4 is the first at a word's start.
ghost use Rattle.std.specs.Prelude.{◌≡◌, ◌≤◌, length};
ghost use Rattle.fm_visit.specs.Learnt.{IsIn};

use crate::tests::calls::same;
use crate::tests::rows::{Answer, By, Found, answers_by};
use fm_base::{Memory, Refusal};
use fm_handle::VarHandle;
use fm_lanes::{Order, Value, ValueKind};
use fm_layout::Layout;
use fm_path::{parse_path, resolve};
use fm_segment::Segment;
use fm_visit::Visit;
use std::alloc::Global;
use std::process::Abort;
use std::sync::Wait;

/// A handle for one of three such values.
fn handle<R: Abort>(rt: &R, alloc: Global, kind: ValueKind, order: Order) -> VarHandle
    ensures { length result.dims ≡ 1 }
{
    let value = Layout::value(kind).with_order(order);
    let three = Layout::sequence(alloc, 3, value).expect(rt, "three");
    let path = parse_path(alloc, "[]").expect(rt, "a path");
    let handle = VarHandle::of(resolve(alloc, &three, &path).expect(rt, "a value"));
    same(rt, handle.resolved().dims().len() == 1, true);
    handle
}

/// What the calls are answered, where others add `step` to a word before each act on it.
pub(crate) fn use_longs<R: Abort + Wait, M: Memory>(
    rt: &R,
    m: &mut M,
    alloc: Global,
    visit: &Visit,
    s: &Segment,
    step: u8,
)
    requires inside { IsIn (M.view m.old) visit.now.arena s.now }
    requires small { step ≤ 1 }
    ensures { IsIn (M.view m.new) visit.now.arena s.now }
{
    let h = handle(rt, alloc, ValueKind::Long, Order::Little);
    let more = i64::from(step);
    let rows = [
        (4, 1, By::Set(5), Ok(Found::Nothing)),
        (4, 1, By::Get, Ok(Found::Value(Value::Long(5 + more)))),
        (4, 1, By::SetLong(40), Ok(Found::Nothing)),
        (
            4,
            1,
            By::ExchangeLong(40 + more, 50),
            Ok(Found::Long(40 + more)),
        ),
        (4, 1, By::AddLong(-1), Ok(Found::Long(50 + more))),
        (4, 1, By::Get, Ok(Found::Value(Value::Long(49 + 2 * more)))),
    ];
    answers_by(rt, m, visit, &h, s, &rows);
    let refused = [
        (4, 3, By::Get, Err(Refusal::IndexOut(0))),
        (u64::MAX, 3, By::Set(1), Err(Refusal::IndexOut(0))),
        (12, 2, By::Get, Err(Refusal::Bounds)),
        (12, 0, By::AddLong(1), Err(Refusal::Bounds)),
        (0, 0, By::Get, Err(Refusal::Misaligned)),
        (0, 0, By::SetIf(0, 1), Err(Refusal::Misaligned)),
    ];
    answers_by(rt, m, visit, &h, s, &refused);
    refuse_all(rt, m, visit, &h, &s.as_read_only(), Refusal::ReadOnly);
}

/// Each call that may change a value is refused so.
fn refuse_all<R: Abort + Wait, M: Memory>(
    rt: &R,
    m: &mut M,
    visit: &Visit,
    h: &VarHandle,
    s: &Segment,
    refusal: Refusal,
)
    requires inside { IsIn (M.view m.old) visit.now.arena s.now }
    requires open { length h.now.dims ≡ 1 }
    ensures { IsIn (M.view m.new) visit.now.arena s.now }
{
    let none: Answer = Err(refusal);
    let rows = [
        (0, 2, By::Set(1), none),
        (0, 2, By::SetIf(0, 1), none),
        (0, 2, By::Exchange(0, 1), none),
        (0, 2, By::Add(1), none),
        (0, 2, By::SetLong(1), none),
        (0, 2, By::ExchangeLong(0, 1), none),
        (0, 2, By::AddLong(1), none),
    ];
    answers_by(rt, m, visit, h, s, &rows);
}

/// Nothing is done with a segment of another arena, whatever the index.
pub(crate) fn refuse_longs_of_another<R: Abort + Wait, M: Memory>(
    rt: &R,
    m: &mut M,
    alloc: Global,
    visit: &Visit,
    s: &Segment,
)
    requires { IsIn (M.view m.old) visit.now.arena s.now }
    ensures { IsIn (M.view m.new) visit.now.arena s.now }
{
    let h = handle(rt, alloc, ValueKind::Long, Order::Little);
    refuse_all(rt, m, visit, &h, s, Refusal::Unsupported);
    let rows = [(4, 3, By::Get, Err(Refusal::Unsupported))];
    answers_by(rt, m, visit, &h, s, &rows);
}

/// Updates that try again where another comes between, and what updates refuse of other values.
pub(crate) fn use_others<R: Abort + Wait, M: Memory>(
    rt: &R,
    m: &mut M,
    alloc: Global,
    visit: &Visit,
    s: &Segment,
)
    requires { IsIn (M.view m.old) visit.now.arena s.now }
    ensures { IsIn (M.view m.new) visit.now.arena s.now }
{
    let ints = [
        (4, 1, By::Set(7), Ok(Found::Nothing)),
        (4, 1, By::Add(0xffff_fffe), Ok(Found::Value(Value::Int(7)))),
        (4, 1, By::SetIf(5, 9), Ok(Found::Is(true))),
        (4, 1, By::Exchange(5, 1), Ok(Found::Value(Value::Int(9)))),
        (4, 3, By::SetLong(1), Err(Refusal::Unsupported)),
        (4, 3, By::ExchangeLong(0, 1), Err(Refusal::Unsupported)),
        (4, 3, By::AddLong(1), Err(Refusal::Unsupported)),
        (4, 1, By::Get, Ok(Found::Value(Value::Int(9)))),
    ];
    answers_by(
        rt,
        m,
        visit,
        &handle(rt, alloc, ValueKind::Int, Order::Big),
        s,
        &ints,
    );
    let shorts = [
        (4, 3, By::SetIf(0, 1), Err(Refusal::Unsupported)),
        (4, 3, By::Exchange(0, 1), Err(Refusal::Unsupported)),
        (4, 3, By::Add(1), Err(Refusal::Unsupported)),
        (4, 3, By::Set(1), Err(Refusal::IndexOut(0))),
    ];
    answers_by(
        rt,
        m,
        visit,
        &handle(rt, alloc, ValueKind::Short, Order::Little),
        s,
        &shorts,
    );
    let longs = [
        (4, 2, By::SetLong(258), Ok(Found::Nothing)),
        (4, 2, By::Add(1), Ok(Found::Value(Value::Long(258)))),
        (4, 2, By::AddLong(1), Err(Refusal::Unsupported)),
        (4, 2, By::ExchangeLong(0, 1), Ok(Found::Long(259))),
    ];
    answers_by(
        rt,
        m,
        visit,
        &handle(rt, alloc, ValueKind::Long, Order::Big),
        s,
        &longs,
    );
}
