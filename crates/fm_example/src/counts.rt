//! How often each price comes: four passes count in one table, which lies in an arena beside that of the prices.
ghost use Rattle.std.specs.Prelude.{◌≡◌, IfOk, None};
ghost use Rattle.fm_arena.specs.Lasting.{SamePool};
ghost use Rattle.fm_rule_calls.specs.Told.{view_of_pass};
ghost use Rattle.fm_segment.specs.Access.{IsKnown};

use fm_arena::{Arena, Shared, keeps_its_pool};
use fm_base::{Kind, Refusal};
use fm_group::{CountTable, Groups, Values, resolved_is_few};
use fm_group_crew::group_with;
use fm_io::FreeGate;
use fm_lanes::{Value, ValueKind};
use fm_layout::Layout;
use fm_path::resolve;
use fm_rule::Pool;
use fm_segment::Segment;
use fm_words::Shape;
use std::alloc::Global;
use std::sync::Wait;
use std::thread::Threads;

/// A page for four prices, and one for as many places; a pass for each thread, and the one that draws them.
const SHAPE: Shape = Shape {
    passes: 5,
    slots: 2,
    pages: 2,
    page_words: 8,
    reach: 1,
    generations: 1,
};

/// Counts how often each price comes, by four passes that are drawn for it.
pub fn count_prices<R: Threads + Wait + Sync>(rt: &R, alloc: Global) -> Result<Groups, Refusal> {
    keeps_its_pool();
    let (pool, pass) = Pool::make(alloc, SHAPE)?;
    let mut ours = Shared::new(&pool, pass);
    let (prices, places) = prices_and_places(rt, &mut ours)?;
    let table = table_of(alloc, prices, places)?;
    let mut ours = ours.into_pass();
    group_with(rt, alloc, &pool, &mut ours, &table, 4, &FreeGate)
}

/// Four prices, one of which is left 0, and room for as many places, each in an arena of its own.
fn prices_and_places<R: Wait>(rt: &R, ours: &mut Shared) -> Result<(Segment, Segment), Refusal>
    requires { ours.old.inside ≡ None }
    ensures outside { IfOk result (λ r. SamePool ours.old ours.new × (ours.new.inside ≡ None)) }
    ensures prices { IfOk result (λ r. IsKnown (view_of_pass ours.new) r.0) }
    ensures places { IfOk result (λ r. IsKnown (view_of_pass ours.new) r.1) }
{
    keeps_its_pool();
    let long = Layout::value(ValueKind::Long);
    let prices = Arena::start(rt, ours, Kind::Shared)?.allocate(rt, ours, 32, 8)?;
    prices.set(rt, ours, &long, 0, Value::Long(250))?;
    prices.set(rt, ours, &long, 8, Value::Long(-40))?;
    prices.set(rt, ours, &long, 24, Value::Long(250))?;
    let places = Arena::start(rt, ours, Kind::Shared)?.allocate(rt, ours, 64, 8)?;
    Ok((prices, places))
}

/// A table in these places, over records of one long. What segments and a resolved path may have otherwise is tested, once.
fn table_of(alloc: Global, records: Segment, places: Segment) -> Result<CountTable, Refusal>
    ensures records { IfOk result (λ table. table.values.records ≡ records) }
    ensures places { IfOk result (λ table. table.table ≡ places) }
{
    resolved_is_few();
    let path = resolve(alloc, &Layout::value(ValueKind::Long), &[])?;
    let (size, alignment) = (path.root_size(), path.root_alignment());
    if size == 0 || alignment == 0 || size % alignment != 0 {
        return Err(Refusal::NoSize);
    }
    if records.size() % size != 0 || records.first() % alignment != 0 {
        return Err(Refusal::Misaligned);
    }
    let values = Values::of(path, records);
    if places.is_read_only() || places.arena() == records.arena() {
        return Err(Refusal::Unsupported);
    }
    if places.first() % 8 != 0 || places.size() == 0 || places.size() % 16 != 0 {
        return Err(Refusal::Misaligned);
    }
    Ok(CountTable::over(places, values))
}
