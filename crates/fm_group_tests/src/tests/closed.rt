ghost use Rattle.fm_mono.specs.Shown.{view_of};
ghost use Rattle.fm_group.specs.Asked.{IsReady};

use crate::tests::calls::{counts, fresh, longs_in, put, same, table_in};
use fm_base::{Kind, Memory, Refusal};
use fm_group::PlaceOrder;
use fm_mono::Mono;

/// A value whose arena is closed isn't read; one whose place's arena is closed isn't counted; nor are
/// groups read.
#[test]
fn a_closed_arena_refuses(rt: HostRuntime) {
    for of_records in [true, false] {
        let mut m = Mono::make(rt.alloc(), 64);
        let records = fresh(&rt, &mut m, Kind::Shared, 16);
        put(&rt, &mut m, &records, 0, 7);
        let places = fresh(&rt, &mut m, Kind::Shared, 32);
        let values = longs_in(&rt, rt.alloc(), records);
        let table = table_in(&rt, places, records, values, PlaceOrder::Mixed);
        counts(&rt, &mut m, &table, 0, Ok(0));
        let closed = if of_records { records } else { places };
        same(&rt, m.close(&rt, closed.arena()), Ok(()));
        counts(&rt, &mut m, &table, 1, Err(Refusal::Closed));
        let read = table.read_groups(rt.alloc(), &mut m);
        same(&rt, read.err(), Some(Refusal::Closed));
    }
}
