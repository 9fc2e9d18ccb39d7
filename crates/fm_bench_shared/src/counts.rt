ghost use Rattle.std.specs.Prelude.{◌≡◌, None, IfOk};
ghost use Rattle.fm_base.specs.Outcomes.{Lasts};
ghost use Rattle.fm_group.specs.Asked.{IsReady};
ghost use Rattle.fm_bench_shared.specs.Ready.{CanAccess};

use crate::memories::Asked;
use fm_base::{Kind, Memory, Refusal};
use fm_group::{CountTable, PlaceOrder, Values, resolved_is_few};
use fm_lanes::{Value, ValueKind};
use fm_layout::Layout;
use fm_path::resolve;
use fm_segment::Segment;
use std::alloc::Global;
use std::sync::Wait;

/// How many longs are counted.
const LONGS: u64 = 1_048_576;

/// An odd number, by which those that differ are multiplied.
const GOLDEN: u64 = 0x9e37_79b9_7f4a_7c15;

/// Begins with longs and a table of zeros; counts them, where `count` is above 0; and reads the table, where it is above
/// 1. Answers how many were counted, or what was read.
pub fn counts<R: Wait, M: Memory>(
    rt: &R,
    alloc: Global,
    m: &mut M,
    asked: &Asked,
) -> Result<u64, Refusal>
    requires { (M.view m.old).inside ≡ None }
{
    let table = table(rt, alloc, m, asked.text.as_str())?;
    if asked.count == 0 {
        return Ok(0);
    }
    count_all(m, &table)?;
    if asked.count == 1 {
        return Ok(LONGS);
    }
    let groups = table.read_groups(alloc, m)?;
    Ok(groups.total())
}

/// Counts all values.
fn count_all<M: Memory>(m: &mut M, table: &CountTable) -> Result<(), Refusal>
    requires { IsReady (M.view m.old) table.now }
    ensures { IfOk result (λ _. IsReady (M.view m.new) table.now) }
{
    for ordinal in 0..table.values().len() {
        table.count(m, ordinal)?;
    }
    Ok(())
}

/// A table of zeros over longs of this name: twice as many places where they all differ.
fn table<R: Wait, M: Memory>(
    rt: &R,
    alloc: Global,
    m: &mut M,
    which: &str,
) -> Result<CountTable, Refusal>
    requires { (M.view m.old).inside ≡ None }
    ensures { IfOk result (λ table. IsReady (M.view m.new) table) }
{
    let records = longs(rt, m, which)?;
    let size = if which == "differ" {
        32 * LONGS
    } else {
        32_768
    };
    let places = segment(rt, m, size)?;
    places.fill(rt, m, 0)?;
    table_in(alloc, records, places)
}

/// The longs of this name, in an arena of their own.
fn longs<R: Wait, M: Memory>(rt: &R, m: &mut M, which: &str) -> Result<Segment, Refusal>
    requires { (M.view m.old).inside ≡ None }
    ensures { IfOk result (λ longs. CanAccess (M.view m.new) longs) }
{
    let longs = segment(rt, m, 8 * LONGS)?;
    let long = Layout::value(ValueKind::Long);
    for k in 0..LONGS {
        let v = Value::Long(number(which, k).cast_signed());
        longs.set(rt, m, &long, 8 * k, v)?;
    }
    Ok(longs)
}

/// The long of this place among them.
fn number(which: &str, k: u64) -> u64 {
    match which {
        "differ" => k.wrapping_add(1).wrapping_mul(GOLDEN),
        "eight" => k.wrapping_mul(GOLDEN) % 8,
        "thousand" => k.wrapping_mul(GOLDEN) % 1_000,
        _ => 7,
    }
}

/// So many bytes in an arena of their own.
fn segment<R: Wait, M: Memory>(rt: &R, m: &mut M, size: u64) -> Result<Segment, Refusal>
    requires { (M.view m.old).inside ≡ None }
    ensures made { IfOk result (λ made. CanAccess (M.view m.new) made) }
    ensures lasts { Lasts (M.view m.old) (M.view m.new) }
{
    let arena = m.open_arena(rt, Kind::Shared)?;
    let first = m.allocate(rt, arena, size, 8)?;
    Ok(Segment::of(arena, first, size))
}

/// A table in these places, over longs. What segments and a resolved path may have otherwise is tested.
fn table_in(alloc: Global, records: Segment, places: Segment) -> Result<CountTable, Refusal>
    ensures records { IfOk result (λ table. table.values.records ≡ records) }
    ensures places { IfOk result (λ table. table.table ≡ places) }
{
    resolved_is_few();
    let path = resolve(alloc, &Layout::value(ValueKind::Long), &[])?;
    let (size, alignment) = (path.root_size(), path.root_alignment());
    if size == 0 || alignment == 0 || size % alignment != 0 {
        return Err(Refusal::NoSize);
    }
    if records.size() % size != 0 || records.first() % alignment != 0 {
        return Err(Refusal::Misaligned);
    }
    let values = Values::of(path, records);
    if places.is_read_only() || places.arena() == records.arena() {
        return Err(Refusal::Unsupported);
    }
    if places.first() % 8 != 0 || places.size() == 0 || places.size() % 16 != 0 {
        return Err(Refusal::Misaligned);
    }
    Ok(CountTable::with_order(places, values, PlaceOrder::Mixed))
}
