ghost use Rattle.fm_mono.specs.Shown.{view_of};
ghost use Rattle.fm_segment.specs.Learnt.{CanUse};

use super::layouts::{accounts, either, table, value};
use crate::tests::compared::same;
use crate::tests::handles::{Call, calls, handle};
use crate::tests::segment_calls::fresh;
use crate::tests::segments::{OF_EACH_KIND, layout_of};
use fm_base::{Kind, Refusal};
use fm_lanes::{Order, Value, ValueKind};
use fm_layout::Layout;
use fm_mono::Mono;
use fm_segment::Segment;
use std::alloc::Global;
use std::process::Abort;
use std::sync::Wait;

/// Paths into a table, with indices, and at which of its five values they lead.
const PATHS: [(&str, &[u64], u64); 5] = [
    (".items[2]", &[], 2),
    (".items[]", &[3], 3),
    (".items[1:2]", &[1], 3),
    (".items[3:-2]", &[1], 1),
    (".either.one", &[], 4),
];

/// Stops where a path doesn't lead to its value of a table of such values, which is in the segment from place 3 on.
fn lead<R: Abort + Wait>(rt: &R, alloc: Global, m: &mut Mono, s: &Segment, v: Value, order: Order)
    requires { CanUse (view_of m.old) s.now }
    ensures { CanUse (view_of m.new) s.now }
{
    let table = table(rt, alloc, v, order);
    let one = layout_of(rt, v, order, 1);
    for (text, indices, at) in PATHS {
        let h = &handle(rt, alloc, &table, text);
        let rows = [
            (h, 3, indices, Call::Set(v), Ok(v)),
            (h, 3, indices, Call::Get, Ok(v)),
        ];
        calls(rt, m, s, &rows);
        assert!(rt; at < 5);
        let place = 3 + at * u64::from(v.kind().width());
        same(rt, (s.get(m, &one, place), text), (Ok(v), text));
    }
}

#[test]
fn values_stand_where_paths_lead(rt: HostRuntime) {
    let mut m = Mono::make(rt.alloc(), 64);
    let s = fresh(&rt, &mut m, Kind::Shared, 48);
    for v in OF_EACH_KIND {
        lead(&rt, rt.alloc(), &mut m, &s, v, Order::Little);
        lead(&rt, rt.alloc(), &mut m, &s, v, Order::Big);
    }
}

#[test]
fn bytes_are_read_as_another_layout_has_them(rt: HostRuntime) {
    let mut m = Mono::make(rt.alloc(), 64);
    let s = fresh(&rt, &mut m, Kind::Shared, 16);
    let none = [].as_slice();
    let big = &value(&rt, rt.alloc(), ValueKind::Int, Order::Big);
    let int = &value(&rt, rt.alloc(), ValueKind::Int, Order::Little);
    let union = either(&rt, rt.alloc(), Layout::value(ValueKind::Long));
    let low = &handle(&rt, rt.alloc(), &union, ".low");
    let long = &handle(&rt, rt.alloc(), &union, ".one");
    let (one, byte) = (Value::Int(1), Value::Byte(127));
    let rows = [
        // a byte of a union as a long
        (low, 8, none, Call::Set(byte), Ok(byte)),
        (long, 8, none, Call::Get, Ok(Value::Long(127))),
        // a big int as a little one
        (big, 0, none, Call::Set(one), Ok(one)),
        (int, 0, none, Call::Get, Ok(Value::Int(16_777_216))),
    ];
    calls(&rt, &mut m, &s, &rows);
}

/// The bytes 4, 3, 2, 1, from place 6 on.
#[test]
fn a_value_across_words_is_got_and_set_alone(rt: HostRuntime) {
    let mut m = Mono::make(rt.alloc(), 64);
    let s = fresh(&rt, &mut m, Kind::Shared, 16);
    let v = Value::Int(16_909_060);
    let none = [].as_slice();
    let int = layout_of(&rt, v, Order::Little, 1);
    let int = &handle(&rt, rt.alloc(), &int, ".");
    let byte = &value(&rt, rt.alloc(), ValueKind::Byte, Order::Little);
    let refused = Err(Refusal::Unsupported);
    let rows = [
        (int, 6, none, Call::Set(v), Ok(v)),
        (int, 6, none, Call::Get, Ok(v)),
        (int, 6, none, Call::Add(v), refused),
        (int, 0, none, Call::Exchange(v, v), refused),
        (int, 0, none, Call::SetIf(v, v), refused),
        (byte, 5, none, Call::Get, Ok(Value::Byte(0))),
        (byte, 6, none, Call::Get, Ok(Value::Byte(4))),
        (byte, 7, none, Call::Get, Ok(Value::Byte(3))),
        (byte, 8, none, Call::Get, Ok(Value::Byte(2))),
        (byte, 9, none, Call::Get, Ok(Value::Byte(1))),
        (byte, 10, none, Call::Get, Ok(Value::Byte(0))),
    ];
    calls(&rt, &mut m, &s, &rows);
}

#[test]
fn accounts_are_added_to(rt: HostRuntime) {
    let mut m = Mono::make(rt.alloc(), 64);
    let s = fresh(&rt, &mut m, Kind::Shared, 40);
    let layout = accounts(&rt, rt.alloc());
    let amount = &handle(&rt, rt.alloc(), &layout, ".rows[].amount");
    let pay = Call::Add(Value::Int(100));
    let indices = [0, 1, 2, 3];
    let (first, second) = (&indices[0..1], &indices[1..2]);
    let (third, fourth) = (&indices[2..3], &indices[3..4]);
    let rows = [
        (amount, 0, third, pay, Ok(Value::Int(0))),
        (amount, 0, third, pay, Ok(Value::Int(100))),
        (amount, 8, second, pay, Ok(Value::Int(200))),
        (amount, 0, fourth, pay, Err(Refusal::IndexOut(0))),
        (amount, u64::MAX, fourth, pay, Err(Refusal::IndexOut(0))),
        (amount, 16, first, pay, Err(Refusal::Bounds)),
        (amount, u64::MAX, first, pay, Err(Refusal::Bounds)),
        (amount, 4, first, pay, Err(Refusal::Misaligned)),
    ];
    calls(&rt, &mut m, &s, &rows);
}
