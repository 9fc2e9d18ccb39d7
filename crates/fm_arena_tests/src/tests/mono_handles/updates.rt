use super::layouts::value;
use crate::tests::handles::{Call, calls};
use crate::tests::segment_calls::fresh;
use fm_base::{Kind, Refusal};
use fm_lanes::{Order, Value, ValueKind};
use fm_mono::Mono;

#[test]
fn sums_wrap_beside_their_neighbour(rt: HostRuntime) {
    let mut m = Mono::make(rt.alloc(), 64);
    let s = fresh(&rt, &mut m, Kind::Shared, 8);
    let int = &value(&rt, rt.alloc(), ValueKind::Int, Order::Little);
    let none = [].as_slice();
    let (one, nine) = (Value::Int(1), Value::Int(9));
    let (most, least) = (Value::Int(2_147_483_647), Value::Int(-2_147_483_648));
    let rows = [
        (int, 0, none, Call::Set(most), Ok(most)),
        (int, 4, none, Call::Set(nine), Ok(nine)),
        (int, 0, none, Call::Add(one), Ok(most)),
        (int, 0, none, Call::Add(most), Ok(least)),
        (int, 0, none, Call::Add(one), Ok(Value::Int(-1))),
        (int, 0, none, Call::Get, Ok(Value::Int(0))),
        (int, 4, none, Call::Get, Ok(nine)),
    ];
    calls(&rt, &mut m, &s, &rows);
}

#[test]
fn longs_are_exchanged_and_added_to(rt: HostRuntime) {
    let mut m = Mono::make(rt.alloc(), 64);
    let s = fresh(&rt, &mut m, Kind::Shared, 8);
    let none = [].as_slice();
    let (zero, nine) = (Value::Long(0), Value::Long(9));
    let (missed, set) = (Ok(Value::Boolean(false)), Ok(Value::Boolean(true)));
    for (order, added) in [
        (Order::Little, Ok(Value::Long(18))),
        (Order::Big, Err(Refusal::Unsupported)),
    ] {
        let long = &value(&rt, rt.alloc(), ValueKind::Long, order);
        let rows = [
            (long, 0, none, Call::SetLong(0), Ok(zero)),
            (long, 0, none, Call::ExchangeLong(0, 9), Ok(zero)),
            (long, 0, none, Call::ExchangeLong(0, 3), Ok(nine)),
            (long, 0, none, Call::Exchange(zero, zero), Ok(nine)),
            (long, 0, none, Call::Exchange(nine, zero), Ok(nine)),
            (long, 0, none, Call::SetIf(zero, nine), set),
            (long, 0, none, Call::SetIf(zero, nine), missed),
            (long, 0, none, Call::Get, Ok(nine)),
            (long, 0, none, Call::Set(nine), Ok(nine)),
            (long, 0, none, Call::Add(nine), Ok(nine)),
            (long, 0, none, Call::AddLong(-20), added),
        ];
        calls(&rt, &mut m, &s, &rows);
    }
}
