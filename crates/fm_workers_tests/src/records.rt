ghost use Rattle.std.specs.Prelude.{◌≡◌, ◌≤◌, ◌*◌, length, None};
ghost use Rattle.fm_segment.specs.Access.{IsKnown};

use crate::compared::same;
use crate::layouts::{push, push_named, push_padding, query_over, sequence, structure};
use crate::printed::printed;
use fm_base::{Kind, Memory, Refusal};
use fm_lanes::{Value, ValueKind};
use fm_layout::Layout;
use fm_mono::Mono;
use fm_records::query_segment;
use fm_segment::Segment;
use std::alloc::AllocGlobal;
use std::process::Abort;
use std::sync::Wait;

/// A struct of int `id`, short `kind`, padding, long `price`, four bytes `tags` and padding: 24 bytes.
pub(crate) fn order<R: Abort + AllocGlobal>(rt: &R) -> Layout {
    let mut members = Vec::new(rt.alloc());
    push_named(rt, &mut members, "id", Layout::value(ValueKind::Int));
    push_named(rt, &mut members, "kind", Layout::value(ValueKind::Short));
    push_padding(rt, &mut members, 2);
    push_named(rt, &mut members, "price", Layout::value(ValueKind::Long));
    let tags = sequence(rt, 4, Layout::value(ValueKind::Byte));
    push_named(rt, &mut members, "tags", tags);
    push_padding(rt, &mut members, 4);
    structure(rt, members)
}

/// What the query of this text answers over the segment's records.
fn asked<R: Abort + AllocGlobal, M: Memory>(
    rt: &R,
    m: &mut M,
    layout: &Layout,
    s: &Segment,
    text: &str,
) -> Result<Vec<u8>, Refusal>
    requires outside { (M.view m.old).inside ≡ None }
    requires known { IsKnown (M.view m.old) s.now }
    ensures outside { (M.view m.new).inside ≡ None }
    ensures known { IsKnown (M.view m.new) s.now }
{
    let query = query_over(rt, text, layout);
    same(rt, s.first() % query.record_alignment(), 0);
    match query_segment(rt.alloc(), m, &query, s) {
        Ok(answer) => printed(rt.alloc(), &query, &answer),
        Err(refusal) => Err(refusal),
    }
}

fn answers<R: Abort + AllocGlobal, M: Memory>(
    rt: &R,
    m: &mut M,
    layout: &Layout,
    s: &Segment,
    text: &str,
    wanted: &str,
)
    requires outside { (M.view m.old).inside ≡ None }
    requires known { IsKnown (M.view m.old) s.now }
    ensures outside { (M.view m.new).inside ≡ None }
    ensures known { IsKnown (M.view m.new) s.now }
{
    let found = asked(rt, m, layout, s, text);
    same(rt, (found.as_deref(), text), (Ok(wanted.as_bytes()), text));
}

fn refuses<R: Abort + AllocGlobal, M: Memory>(
    rt: &R,
    m: &mut M,
    layout: &Layout,
    s: &Segment,
    text: &str,
    wanted: Refusal,
)
    requires outside { (M.view m.old).inside ≡ None }
    requires known { IsKnown (M.view m.old) s.now }
    ensures outside { (M.view m.new).inside ≡ None }
    ensures known { IsKnown (M.view m.new) s.now }
{
    let found = asked(rt, m, layout, s, text);
    same(rt, (found.err(), text), (Some(wanted), text));
}

fn answers_row<R: Abort + AllocGlobal, M: Memory>(
    rt: &R,
    m: &mut M,
    layout: &Layout,
    s: &Segment,
    row: &str,
)
    requires outside { (M.view m.old).inside ≡ None }
    requires known { IsKnown (M.view m.old) s.now }
    ensures outside { (M.view m.new).inside ≡ None }
    ensures known { IsKnown (M.view m.new) s.now }
{
    let (text, lines) = row.split_once('|').unwrap_or((row, ""));
    let wanted = lines.replace(rt.alloc(), "|", "\n").expect(rt, "lines");
    answers(rt, m, layout, s, text, wanted.as_str());
}

/// Asks the query at the front of each row. Behind it stand the lines of its answer, each ended by a bar.
pub(crate) fn answers_rows<R: Abort + AllocGlobal, M: Memory>(
    rt: &R,
    m: &mut M,
    layout: &Layout,
    s: &Segment,
    rows: &str,
)
    requires outside { (M.view m.old).inside ≡ None }
    requires known { IsKnown (M.view m.old) s.now }
    ensures outside { (M.view m.new).inside ≡ None }
    ensures known { IsKnown (M.view m.new) s.now }
{
    for row in rows.lines() {
        answers_row(rt, m, layout, s, row);
    }
}

/// A segment of a fresh shared arena with these longs.
pub(crate) fn longs<R: Abort + Wait, M: Memory>(rt: &R, m: &mut M, numbers: &[i64]) -> Segment
    requires few { length numbers.now ≤ 16 }
    requires outside { (M.view m.old).inside ≡ None }
    ensures outside { (M.view m.new).inside ≡ None }
    ensures known { IsKnown (M.view m.new) result }
    ensures size { result.size ≡ 8 * length numbers.now }
{
    let arena = m.open_arena(rt, Kind::Shared).expect(rt, "an arena");
    let size = 8 * numbers.len() as u64;
    let first = m.allocate(rt, arena, size, 8).expect(rt, "the longs");
    let s = Segment::of(arena, first, size);
    let long = Layout::value(ValueKind::Long);
    for k in 0..numbers.len() {
        same(
            rt,
            s.set(rt, m, &long, 8 * k as u64, Value::Long(numbers[k])),
            Ok(()),
        );
    }
    s
}

/// The words of two orders: 01000000 0200 0000 fa00000000000000 01020304 00000000, and
/// 02000000 0300 0000 d8ffffffffffffff 050000ff 00000000.
const WORDS: [i64; 6] = [
    0x0000_0002_0000_0001,
    0xfa,
    0x0403_0201,
    0x0000_0003_0000_0002,
    -40,
    0xff00_0005,
];

/// A segment of a fresh shared arena with those two records.
pub(crate) fn two_orders<R: Abort + Wait, M: Memory>(rt: &R, m: &mut M) -> Segment
    requires { (M.view m.old).inside ≡ None }
    ensures outside { (M.view m.new).inside ≡ None }
    ensures known { IsKnown (M.view m.new) result }
    ensures size { result.size ≡ 48 }
{
    longs(rt, m, &WORDS)
}

/// Queries over those two orders, and what they answer.
const ANSWERS: &str = "\
count,sum(.price),list(.tags[]) where .kind>=2|count 2|sum(.price) 210|list(.tags[]) 1 2 3 4 5 0 0 -1|
min(.price),max(.tags[])|min(.price) -40|max(.tags[]) 5|
min(.price) where .kind=9|min(.price) none|
sum(.id) where .kind>2 and .price<0|sum(.id) 2|
list(.id) where .kind=2|list(.id) 1|
list(.id) where .kind=1|list(.id)|
list(.id) where .kind!=2|list(.id) 2|
list(.id) where .kind!=4|list(.id) 1 2|
list(.id) where .kind<2|list(.id)|
list(.id) where .kind<3|list(.id) 1|
list(.id) where .kind<=2|list(.id) 1|
list(.id) where .kind<=1|list(.id)|
list(.id) where .kind>2|list(.id) 2|
list(.id) where .kind>3|list(.id)|
list(.id) where .kind>=3|list(.id) 2|
list(.id) where .kind>=4|list(.id)|
list(.id) where .price>=-40|list(.id) 1 2|
list(.id) where .price>-40|list(.id) 1|";

#[test]
fn answers_over_two_records(rt: HostRuntime) {
    let mut m = Mono::make(rt.alloc(), 1024);
    let s = two_orders(&rt, &mut m);
    answers_rows(&rt, &mut m, &order(&rt), &s, ANSWERS);
}

/// A byte, and a bound of 2^40 around a bound of 0.
fn empty_bounds<R: Abort + AllocGlobal>(rt: &R) -> Layout {
    let empty = sequence(rt, 0, Layout::value(ValueKind::Byte));
    let many = sequence(rt, 1_099_511_627_776, empty);
    let mut members = Vec::new(rt.alloc());
    push(rt, &mut members, Layout::value(ValueKind::Byte));
    push(rt, &mut members, many);
    structure(rt, members)
}

#[test]
fn bounds_of_0_have_no_values(rt: HostRuntime) {
    let mut m = Mono::make(rt.alloc(), 1024);
    let arena = m.open_arena(&rt, Kind::Shared).expect(&rt, "an arena");
    let first = m.allocate(&rt, arena, 2, 1).expect(&rt, "two bytes");
    let s = Segment::of(arena, first, 2);
    let text = "count,sum(.#1[][]),min(.#1[][]),list(.#1[][])";
    let wanted = "count 2\nsum(.#1[][]) 0\nmin(.#1[][]) none\nlist(.#1[][])\n";
    answers(&rt, &mut m, &empty_bounds(&rt), &s, text, wanted);
}

#[test]
fn refuses_bytes_behind_the_last_record(rt: HostRuntime) {
    let mut m = Mono::make(rt.alloc(), 1024);
    let s = two_orders(&rt, &mut m);
    let layout = order(&rt);
    let more = Segment::of(s.arena(), s.first(), 40);
    let fewer = Segment::of(s.arena(), s.first(), 23);
    m.close(&rt, s.arena()).expect(&rt, "open");
    refuses(
        &rt,
        &mut m,
        &layout,
        &more,
        "sum(.price)",
        Refusal::Ragged(16),
    );
    refuses(&rt, &mut m, &layout, &fewer, "count", Refusal::Ragged(23));
}

#[test]
fn a_closed_arena_is_found_at_the_first_value(rt: HostRuntime) {
    let mut m = Mono::make(rt.alloc(), 1024);
    let s = two_orders(&rt, &mut m);
    let layout = order(&rt);
    m.close(&rt, s.arena()).expect(&rt, "open");
    refuses(&rt, &mut m, &layout, &s, "sum(.price)", Refusal::Closed);
    refuses(
        &rt,
        &mut m,
        &layout,
        &s,
        "count where .kind=2",
        Refusal::Closed,
    );
    answers(&rt, &mut m, &layout, &s, "count", "count 2\n");
}

#[test]
fn an_empty_segment_has_no_records(rt: HostRuntime) {
    let mut m = Mono::make(rt.alloc(), 1024);
    let s = two_orders(&rt, &mut m);
    let empty = Segment::of(s.arena(), s.first(), 0);
    let text = "count,sum(.price),max(.price),list(.tags[]) where .kind>=2";
    let wanted = "count 0\nsum(.price) 0\nmax(.price) none\nlist(.tags[])\n";
    answers(&rt, &mut m, &order(&rt), &empty, text, wanted);
}
