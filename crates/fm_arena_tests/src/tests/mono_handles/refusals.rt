use super::layouts::{accounts, value};
use crate::tests::compared::same;
use crate::tests::handles::{Call, calls, handle, two};
use crate::tests::segment_calls::fresh;
use fm_base::{Kind, Memory, Refusal};
use fm_lanes::{Order, Value, ValueKind};
use fm_layout::Layout;
use fm_mono::Mono;

/// What is unsupported is told first, and then the index, what is read-only, the bounds, and that the arena is closed.
#[test]
fn calls_on_what_is_closed_are_refused_in_order(rt: HostRuntime) {
    let mut m = Mono::make(rt.alloc(), 64);
    let s = fresh(&rt, &mut m, Kind::Shared, 16);
    same(&rt, m.close(&rt, s.arena()), Ok(()));
    let longs = two(&rt, rt.alloc(), Layout::value(ValueKind::Long));
    let long = &handle(&rt, rt.alloc(), &longs, "[]");
    let indices = [0, 1, 2, 9];
    let (first, second) = (&indices[0..1], &indices[1..2]);
    let (third, tenth) = (&indices[2..3], &indices[3..4]);
    let add = Call::Add(Value::Long(1));
    let set = Call::Set(Value::Long(1));
    let open = [
        (long, 9, second, set, Err(Refusal::Bounds)),
        (long, 9, second, Call::SetLong(1), Err(Refusal::Bounds)),
        (long, 9, second, add, Err(Refusal::Bounds)),
        (long, 0, second, set, Err(Refusal::Closed)),
        (long, 0, second, Call::SetLong(1), Err(Refusal::Closed)),
        (long, 0, second, add, Err(Refusal::Closed)),
    ];
    calls(&rt, &mut m, &s, &open);
    let shorts = two(&rt, rt.alloc(), Layout::value(ValueKind::Short));
    let short = &handle(&rt, rt.alloc(), &shorts, "[]");
    let narrow = Layout::value(ValueKind::Long).with_alignment(4);
    let narrow = narrow.expect(&rt, "an alignment");
    let narrow = &handle(&rt, rt.alloc(), &narrow, ".");
    let none = &indices[0..0];
    let one = Call::Add(Value::Short(1));
    let kept = [
        (short, 9, tenth, one, Err(Refusal::Unsupported)),
        (narrow, 9, none, Call::SetLong(1), Err(Refusal::Unsupported)),
        (long, 9, third, set, Err(Refusal::IndexOut(0))),
        (long, 9, third, Call::SetLong(1), Err(Refusal::IndexOut(0))),
        (long, 9, third, add, Err(Refusal::IndexOut(0))),
        (long, 9, second, set, Err(Refusal::ReadOnly)),
        (long, 9, second, Call::SetLong(1), Err(Refusal::ReadOnly)),
        (long, 9, second, add, Err(Refusal::ReadOnly)),
        (long, 0, first, Call::Get, Err(Refusal::Closed)),
    ];
    calls(&rt, &mut m, &s.as_read_only(), &kept);
}

#[test]
fn calls_are_refused_by_their_root(rt: HostRuntime) {
    let mut m = Mono::make(rt.alloc(), 64);
    let s = fresh(&rt, &mut m, Kind::Shared, 8);
    let count = &handle(&rt, rt.alloc(), &accounts(&rt, rt.alloc()), ".count");
    let long = &value(&rt, rt.alloc(), ValueKind::Long, Order::Little);
    let int = &value(&rt, rt.alloc(), ValueKind::Int, Order::Little);
    let short = &value(&rt, rt.alloc(), ValueKind::Short, Order::Little);
    let none = [].as_slice();
    let one = Call::Add(Value::Short(1));
    let rows = [
        (long, 0, none, Call::Get, Ok(Value::Long(0))),
        (long, 1, none, Call::Get, Err(Refusal::Bounds)),
        (int, 1, none, Call::Get, Err(Refusal::Misaligned)),
        (count, 0, none, Call::Get, Err(Refusal::Bounds)),
        (short, 0, none, one, Err(Refusal::Unsupported)),
    ];
    calls(&rt, &mut m, &s, &rows);
    same(&rt, s.as_slice(5, 4).err(), Some(Refusal::Bounds));
    let rows = [(long, 0, none, Call::SetLong(1), Err(Refusal::ReadOnly))];
    calls(&rt, &mut m, &s.as_read_only(), &rows);
}
