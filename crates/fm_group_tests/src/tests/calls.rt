ghost use Rattle.std.specs.Prelude.{◌≡◌, ◌≢◌, true, false};
ghost use Rattle.fm_base.specs.Outcomes.{Lasts};
ghost use Rattle.fm_segment.specs.Learnt.{CanUse};
ghost use Rattle.fm_group.specs.Asked.{IsReady};
ghost use Rattle.fm_group.specs.Table.{counter};
ghost use Rattle.fm_group.specs.Values.{valued};

use fm_base::{Kind, Memory, Refusal};
use fm_group::{CountTable, PlaceOrder, Values, resolved_is_few};
use fm_lanes::{Value, ValueKind};
use fm_layout::Layout;
use fm_path::resolve;
use fm_segment::Segment;
use std::alloc::Global;
use std::fmt::Debug;
use std::process::Abort;
use std::sync::Wait;

pub(crate) fn same<R: Abort, T: PartialEq + Debug + Drop>(rt: &R, found: T, wanted: T)
    ensures { T.eq found wanted ≡ true }
{
    assert_eq!(rt; found, wanted);
}

/// So many bytes of a fresh arena.
pub(crate) fn fresh<R: Abort + Wait, M: Memory>(rt: &R, m: &mut M, kind: Kind, size: u64) -> Segment
    requires outside { (M.view m.old).inside ≡ None }
    requires by_hand { kind ≢ Kind.Automatic }
    ensures known { CanUse (M.view m.new) result }
    ensures lasts { Lasts (M.view m.old) (M.view m.new) }
{
    let arena = m.open_arena(rt, kind).expect(rt, "an arena");
    let first = m.allocate(rt, arena, size, 8).expect(rt, "bytes");
    Segment::of(arena, first, size)
}

/// The longs of a segment as values: each is a record.
pub(crate) fn longs_in<R: Abort>(rt: &R, alloc: Global, s: Segment) -> Values
    ensures { result.records ≡ s }
{
    resolved_is_few();
    let path = resolve(alloc, &Layout::value(ValueKind::Long), &[]).expect(rt, "a value");
    assert!(rt; path.root_size() > 0);
    assert!(rt; path.root_alignment() > 0);
    assert!(rt; path.root_size() % path.root_alignment() == 0);
    assert!(rt; s.size() % path.root_size() == 0);
    assert!(rt; s.first() % path.root_alignment() == 0);
    Values::of(path, s)
}

/// A table in these places, over these values.
pub(crate) fn table_in<R: Abort>(
    rt: &R,
    places: Segment,
    records: Segment,
    values: Values,
    order: PlaceOrder,
) -> CountTable
    requires { values.records ≡ records }
    ensures { result ≡ counter places values order }
{
    assert!(rt; !places.is_read_only());
    assert!(rt; places.arena() != records.arena());
    assert!(rt; places.first() % 8 == 0);
    assert!(rt; places.size() > 0);
    assert!(rt; places.size() % 16 == 0);
    CountTable::with_order(places, values, order)
}

/// Stops where a count doesn't answer so.
pub(crate) fn counts<R: Abort, M: Memory>(
    rt: &R,
    m: &mut M,
    table: &CountTable,
    ordinal: u64,
    answer: Result<u64, Refusal>,
)
    requires { IsReady (M.view m.old) table.now }
    ensures ready { IsReady (M.view m.new) table.now }
    ensures lasts { Lasts (M.view m.old) (M.view m.new) }
{
    assert!(rt; ordinal < table.values().len());
    same(rt, (table.count(m, ordinal), ordinal), (answer, ordinal));
}

/// Stops where the long at a place of a segment isn't this one.
pub(crate) fn has<R: Abort, M: Memory>(rt: &R, m: &mut M, s: &Segment, offset: u64, long: i64)
    requires { CanUse (M.view m.old) s.now }
    ensures known { CanUse (M.view m.new) s.now }
    ensures lasts { Lasts (M.view m.old) (M.view m.new) }
{
    let found = s.get(m, &Layout::value(ValueKind::Long), offset);
    same(rt, (found, offset), (Ok(Value::Long(long)), offset));
}

/// Puts a long into a segment.
pub(crate) fn put<R: Abort + Wait, M: Memory>(
    rt: &R,
    m: &mut M,
    s: &Segment,
    offset: u64,
    long: i64,
)
    requires { CanUse (M.view m.old) s.now }
    ensures known { CanUse (M.view m.new) s.now }
    ensures lasts { Lasts (M.view m.old) (M.view m.new) }
{
    let done = s.set(
        rt,
        m,
        &Layout::value(ValueKind::Long),
        offset,
        Value::Long(long),
    );
    same(rt, (done, offset), (Ok(()), offset));
}
