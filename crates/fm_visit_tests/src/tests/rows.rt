//! Calls of a visit as rows: one body makes them all.
ghost use Rattle.std.specs.Prelude.{◌≡◌, length};
ghost use Rattle.fm_layout.specs.Parts.{IsValue};
ghost use Rattle.fm_segment.specs.Access.{HasKind, IsKnown};
ghost use Rattle.fm_visit.specs.Learnt.{IsIn};

use crate::tests::calls::same;
use fm_base::{Memory, Refusal};
use fm_handle::VarHandle;
use fm_lanes::{Order, Value, ValueKind, decode};
use fm_layout::Layout;
use fm_segment::Segment;
use fm_visit::Visit;
use std::process::Abort;
use std::sync::Wait;

/// A value layout's order and alignment.
pub(crate) type Form = (Order, u64);

/// A call on a segment, or from it to a second one.
#[derive(Clone, Copy, Debug, PartialEq, Eq)]
pub(crate) enum Call {
    Get(ValueKind, Form, u64),
    Set(Form, u64, Value),
    GetBytes(u64),
    PutBytes(u64, [u8; 5]),
    Fill(u8),
    Copy(u64, u64, u64),
    Mismatch,
}

/// A call by a handle with one open step. Numbers stand for values of its kind.
#[derive(Clone, Copy, Debug, PartialEq, Eq)]
pub(crate) enum By {
    Get,
    Set(u64),
    SetIf(u64, u64),
    Exchange(u64, u64),
    Add(u64),
    SetLong(i64),
    ExchangeLong(i64, i64),
    AddLong(i64),
}

/// What a call answers that isn't refused.
#[derive(Clone, Copy, Debug, PartialEq, Eq)]
pub(crate) enum Found {
    Nothing,
    Value(Value),
    Bytes([u8; 5]),
    Offset(i64),
    Long(i64),
    Is(bool),
}

pub(crate) type Answer = Result<Found, Refusal>;

/// A value layout of this kind and form.
fn layout_of<R: Abort>(rt: &R, kind: ValueKind, form: Form) -> Layout
    ensures value { IsValue result }
    ensures kind { HasKind result kind }
{
    let (order, alignment) = form;
    let layout = Layout::value(kind).with_order(order);
    layout.with_alignment(alignment).expect(rt, "an alignment")
}

/// What the call is answered.
fn called<R: Abort + Wait, M: Memory>(
    rt: &R,
    m: &mut M,
    visit: &Visit,
    s: &Segment,
    t: &Segment,
    call: Call,
) -> Answer
    requires first { IsIn (M.view m.old) visit.now.arena s.now }
    requires second { IsKnown (M.view m.old) t.now }
    ensures first { IsIn (M.view m.new) visit.now.arena s.now }
    ensures second { IsKnown (M.view m.new) t.now }
{
    match call {
        Call::Get(kind, form, offset) => {
            let layout = layout_of(rt, kind, form);
            visit.get(m, s, &layout, offset).map(|v| Found::Value(v))
        }
        Call::Set(form, offset, v) => {
            let layout = layout_of(rt, v.kind(), form);
            visit
                .set(rt, m, s, &layout, offset, v)
                .map(|_| Found::Nothing)
        }
        Call::GetBytes(offset) => {
            let mut bytes = [0; 5];
            let got = visit.get_bytes(m, s, offset, &mut bytes);
            got.map(|_| Found::Bytes(bytes))
        }
        Call::PutBytes(offset, bytes) => {
            visit
                .put_bytes(rt, m, s, offset, &bytes)
                .map(|_| Found::Nothing)
        }
        Call::Fill(byte) => visit.fill(rt, m, s, byte).map(|_| Found::Nothing),
        Call::Copy(from, to, n) => { visit.copy(rt, m, s, from, t, to, n).map(|_| Found::Nothing) }
        Call::Mismatch => visit.mismatch(m, s, t).map(|at| Found::Offset(at)),
    }
}

/// Stops where a call isn't answered as its row says.
pub(crate) fn answers<R: Abort + Wait, M: Memory>(
    rt: &R,
    m: &mut M,
    visit: &Visit,
    s: &Segment,
    t: &Segment,
    rows: &[(Call, Answer)],
)
    requires first { IsIn (M.view m.old) visit.now.arena s.now }
    requires second { IsKnown (M.view m.old) t.now }
    ensures first { IsIn (M.view m.new) visit.now.arena s.now }
    ensures second { IsKnown (M.view m.new) t.now }
{
    for row in rows {
        let (call, answer) = *row;
        let found = called(rt, m, visit, s, t, call);
        same(rt, (call, found), (call, answer));
    }
}

/// What the call by the handle is answered.
fn called_by<R: Wait, M: Memory>(
    rt: &R,
    m: &mut M,
    visit: &Visit,
    h: &VarHandle,
    s: &Segment,
    row: (u64, u64, By),
) -> Answer
    requires inside { IsIn (M.view m.old) visit.now.arena s.now }
    requires open { length h.now.dims ≡ 1 }
    ensures { IsIn (M.view m.new) visit.now.arena s.now }
{
    let (base, index, by) = row;
    let at = [index];
    let kind = h.resolved().value().kind;
    match by {
        By::Get => visit.get_by(m, h, s, base, &at).map(|v| Found::Value(v)),
        By::Set(n) => {
            let v = decode(kind, n);
            visit
                .set_by(rt, m, h, s, base, &at, v)
                .map(|_| Found::Nothing)
        }
        By::SetIf(expected, n) => {
            let set = visit.compare_and_set(
                rt,
                m,
                h,
                s,
                base,
                &at,
                decode(kind, expected),
                decode(kind, n),
            );
            set.map(|is| Found::Is(is))
        }
        By::Exchange(expected, n) => {
            let found = visit.compare_and_exchange(
                rt,
                m,
                h,
                s,
                base,
                &at,
                decode(kind, expected),
                decode(kind, n),
            );
            found.map(|v| Found::Value(v))
        }
        By::Add(n) => {
            let found = visit.get_and_add(rt, m, h, s, base, &at, decode(kind, n));
            found.map(|v| Found::Value(v))
        }
        By::SetLong(n) => visit
            .set_long(m, h, s, base, &at, n)
            .map(|_| Found::Nothing),
        By::ExchangeLong(expected, n) => {
            let found = visit.compare_and_exchange_long(m, h, s, base, &at, expected, n);
            found.map(|n| Found::Long(n))
        }
        By::AddLong(n) => {
            let found = visit.get_and_add_long(m, h, s, base, &at, n);
            found.map(|n| Found::Long(n))
        }
    }
}

/// Stops where a call by the handle isn't answered as its row says: the base, the index, the call, and the answer.
pub(crate) fn answers_by<R: Abort + Wait, M: Memory>(
    rt: &R,
    m: &mut M,
    visit: &Visit,
    h: &VarHandle,
    s: &Segment,
    rows: &[(u64, u64, By, Answer)],
)
    requires inside { IsIn (M.view m.old) visit.now.arena s.now }
    requires open { length h.now.dims ≡ 1 }
    ensures { IsIn (M.view m.new) visit.now.arena s.now }
{
    for row in rows {
        let (base, index, by, answer) = *row;
        let found = called_by(rt, m, visit, h, s, (base, index, by));
        same(rt, (base, index, by, found), (base, index, by, answer));
    }
}
