ghost use Rattle.std.specs.Prelude.{◌≡◌, None};
ghost use Rattle.fm_records.specs.Learnt.{CanQuery};

use fm_base::{Kind, Memory, Refusal};
use fm_ljson::layout_from_json;
use fm_records::query_segment;
use fm_records_query::{Query, check_record, parse_query};
use fm_segment::Segment;
use std::alloc::Global;
use std::sync::Wait;

/// How many records are asked.
const RECORDS: u64 = 1_000;

/// The bytes of a record.
const SIZE: u64 = 24;

/// An order: an int `id`, a short `kind`, a long `price` and four bytes `tags`.
const ORDER: &str =
    "{\"type\":\"struct\",\"members\":[{\"type\":\"int\",\"name\":\"id\"},{\"type\":\"short\",\"name\":\"kind\"},{\"type\":\"padding\",\"size\":2},{\"type\":\"long\",\"name\":\"price\"},{\"type\":\"sequence\",\"name\":\"tags\",\"count\":4,\"element\":{\"type\":\"byte\"}},{\"type\":\"padding\",\"size\":4}]}";

/// Asks a query of orders so often, and answers how many items were answered.
pub fn queries<R: Wait, M: Memory>(
    rt: &R,
    alloc: Global,
    m: &mut M,
    text: &str,
    count: u64,
) -> Result<u64, Refusal>
    requires { (M.view m.old).inside ≡ None }
{
    let query = query_of(alloc, text)?;
    let arena = m.open_arena(rt, Kind::Shared)?;
    let first = m.allocate(rt, arena, RECORDS * SIZE, 8)?;
    let orders = Segment::of(arena, first, RECORDS * SIZE);
    if orders.first() % query.record_alignment() != 0 {
        return Err(Refusal::Misaligned);
    }
    found(alloc, m, &query, &orders, count)
}

/// The query of orders that the text is.
fn query_of(alloc: Global, text: &str) -> Result<Query, Refusal> {
    let layout = layout_from_json(alloc, ORDER.as_bytes())?;
    check_record(&layout)?;
    parse_query(alloc, text, &layout)
}

/// The same, where the records are known and aligned.
fn found<M: Memory>(
    alloc: Global,
    m: &mut M,
    query: &Query,
    orders: &Segment,
    count: u64,
) -> Result<u64, Refusal>
    requires { CanQuery (M.view m.old) query.now orders.now }
{
    let mut found: u64 = 0;
    for _ in 0..count {
        let answer = query_segment(alloc, m, query, orders)?;
        found = found.wrapping_add(answer.found().len() as u64);
    }
    Ok(found)
}
