use crate::tests::compared::same;
use fm_base::{Kind, Memory, Refusal};
use fm_lanes::{Value, ValueKind};
use fm_layout::Layout;
use fm_mono::Mono;
use fm_segment::Segment;
use std::test::Fail;

/// The first example of docs/LIBRARY.md.
#[test]
fn a_price_is_got_until_its_arena_closes(rt: HostRuntime) -> Result<(), Fail> {
    let mut memory = Mono::make(rt.alloc(), 64);
    let arena = memory.open_arena(&rt, Kind::Confined)?;
    let place = memory.allocate(&rt, arena, 24, 8)?;
    let sale = Segment::of(arena, place, 24);
    let long = Layout::value(ValueKind::Long);
    sale.set(&rt, &mut memory, &long, 8, Value::Long(250))?;
    assert_eq!(rt; sale.get(&mut memory, &long, 8), Ok(Value::Long(250)));
    let price = sale.as_slice(8, 8)?;
    assert_eq!(rt; price.get(&mut memory, &long, 0), Ok(Value::Long(250)));
    assert_eq!(rt; price.get(&mut memory, &long, 8), Err(Refusal::Bounds));
    memory.close(&rt, arena)?;
    assert_eq!(rt; price.get(&mut memory, &long, 0), Err(Refusal::Closed));
    Ok(())
}
