ghost use Rattle.fm_segment.specs.Learnt.{CanUse};

use crate::tests::compared::same;
use crate::tests::segment_calls::fresh;
use crate::tests::segments::{OF_EACH_KIND, layout_of};
use fm_base::{Kind, Memory, Refusal};
use fm_lanes::{Order, Value};
use fm_mono::Mono;
use fm_segment::Segment;
use std::process::Abort;
use std::sync::Wait;

/// A call on the value at an offset, or at an index.
#[derive(Clone, Copy)]
enum Call {
    Get(u64),
    Set(u64),
    GetAtIndex(u64),
    SetAtIndex(u64),
}

/// A value by its order and alignment: it is put, or is wanted of a call that gets.
type Form = (Value, Order, u64);

/// The value that was got or put.
fn answer<R: Abort + Wait, M: Memory>(
    rt: &R,
    m: &mut M,
    s: &Segment,
    call: Call,
    form: Form,
) -> Result<Value, Refusal>
    requires { CanUse (M.view m.old) s.now }
    ensures { CanUse (M.view m.new) s.now }
{
    let (v, order, align) = form;
    let layout = layout_of(rt, v, order, align);
    match call {
        Call::Get(offset) => s.get(m, &layout, offset),
        Call::Set(offset) => s.set(rt, m, &layout, offset, v).and(Ok(v)),
        Call::GetAtIndex(index) => s.get_at_index(m, &layout, index),
        Call::SetAtIndex(index) => s.set_at_index(rt, m, &layout, index, v).and(Ok(v)),
    }
}

/// Stops where one of the calls isn't answered so.
fn calls<R: Abort + Wait, M: Memory>(
    rt: &R,
    m: &mut M,
    s: &Segment,
    rows: &[(Call, Form, Result<(), Refusal>)],
)
    requires { CanUse (M.view m.old) s.now }
    ensures { CanUse (M.view m.new) s.now }
{
    for (k, row) in rows.iter().enumerate() {
        let (call, form, wanted) = *row;
        let found = answer(rt, m, s, call, form);
        same(rt, (k, found), (k, wanted.and(Ok(form.0))));
    }
}

/// At each place from a word's start to the next word's.
#[test]
fn what_was_set_is_got(rt: HostRuntime) {
    let mut m = Mono::make(rt.alloc(), 64);
    let s = fresh(&rt, &mut m, Kind::Shared, 16);
    for v in OF_EACH_KIND {
        for order in [Order::Little, Order::Big] {
            for offset in 0..9 {
                let form = (v, order, 1);
                let rows = [
                    (Call::Set(offset), form, Ok(())),
                    (Call::Get(offset), form, Ok(())),
                ];
                calls(&rt, &mut m, &s, &rows);
            }
        }
    }
}

/// A long at its own places.
fn long(n: i64) -> Form {
    (Value::Long(n), Order::Little, 8)
}

/// An int in big order across two words, of which a long is the second.
#[test]
fn big_order_puts_the_highest_byte_first(rt: HostRuntime) {
    let mut m = Mono::make(rt.alloc(), 64);
    let s = fresh(&rt, &mut m, Kind::Shared, 16);
    let (before, after) = (Value::Int(0x0102_0304), Value::Int(0x0102_0500));
    let rows = [
        (Call::Set(6), (before, Order::Big, 1), Ok(())),
        (Call::GetAtIndex(0), long(0x0201 << 48), Ok(())),
        (Call::GetAtIndex(1), long(0x0403), Ok(())),
        (Call::SetAtIndex(1), long(5), Ok(())),
        (Call::Get(6), (after, Order::Big, 1), Ok(())),
    ];
    calls(&rt, &mut m, &s, &rows);
}

#[test]
fn accesses_are_refused_in_order(rt: HostRuntime) {
    let mut m = Mono::make(rt.alloc(), 64);
    let s = fresh(&rt, &mut m, Kind::Shared, 16);
    same(&rt, m.close(&rt, s.arena()), Ok(()));
    // an alignment above its size
    let sparse = (Value::Int(1), Order::Little, 8);
    let rows = [
        (Call::GetAtIndex(0), sparse, Err(Refusal::Unsupported)),
        (Call::Get(8), sparse, Err(Refusal::Closed)),
        (Call::Set(9), long(1), Err(Refusal::Bounds)),
        (Call::GetAtIndex(1 << 61), long(1), Err(Refusal::Bounds)),
        (Call::Get(u64::MAX), long(1), Err(Refusal::Bounds)),
        (Call::Get(4), long(1), Err(Refusal::Misaligned)),
        (Call::Set(8), long(1), Err(Refusal::Closed)),
    ];
    calls(&rt, &mut m, &s, &rows);
    let rows = [
        (Call::SetAtIndex(0), sparse, Err(Refusal::Unsupported)),
        (Call::SetAtIndex(u64::MAX), long(1), Err(Refusal::ReadOnly)),
        (Call::Set(9), long(1), Err(Refusal::ReadOnly)),
    ];
    calls(&rt, &mut m, &s.as_read_only(), &rows);
}
