ghost use Rattle.std.specs.Prelude.{◌≡◌, ◌≤◌, true, None};
ghost use Rattle.fm_records.specs.Joined.{CanJoin, CanJoinFound};
ghost use Rattle.fm_segment.specs.Access.{IsKnown};

use crate::compared::same;
use crate::layouts::query_over;
use crate::printed::printed;
use crate::records::{longs, order, two_orders};
use fm_base::Memory;
use fm_lanes::ValueKind;
use fm_layout::Layout;
use fm_mono::Mono;
use fm_records::{Answer, Found, Numbers, Query, of_no_records, query_segment};
use fm_segment::Segment;
use std::alloc::AllocGlobal;
use std::process::Abort;
use std::sync::Wait;

/// Whether the answers' counts and sums together are within 64 and 128 bits.
fn can_join(a: &[Found], b: &[Found]) -> bool
    ensures { result ≡ true → CanJoin a.now b.now }
{
    match (a, b) {
        ([], []) => true,
        ([f, fs @ ..], [g, gs @ ..]) => can_join_found(f, g) && can_join(fs, gs),
        _ => false,
    }
}

fn can_join_found(f: &Found, g: &Found) -> bool
    ensures { result ≡ true → CanJoinFound f.now g.now }
{
    match (f, g) {
        (Found::Count(m), Found::Count(n)) => m.checked_add(*n).is_some(),
        (Found::Sum(x), Found::Sum(y)) => x.checked_add(*y).is_some(),
        (Found::Least(_), Found::Least(_)) => true,
        (Found::Greatest(_), Found::Greatest(_)) => true,
        (Found::Listed(_), Found::Listed(_)) => true,
        _ => false,
    }
}

fn prints<R: Abort + AllocGlobal>(rt: &R, q: &Query, answer: &Answer, wanted: &str) {
    let found = printed(rt.alloc(), q, answer);
    same(rt, found.as_deref(), Ok(wanted.as_bytes()));
}

/// What these two queries find in the two runs that so many bytes part, joined.
fn joins_at<R: Abort + AllocGlobal, M: Memory>(
    rt: &R,
    m: &mut M,
    s: &Segment,
    cut: u64,
    mine: &Query,
    others: &Query,
    wanted: &str,
)
    requires outside { (M.view m.old).inside ≡ None }
    requires known { IsKnown (M.view m.old) s.now }
    requires within { cut ≤ s.now.size }
{
    let alloc = rt.alloc();
    let first = Segment::of(s.arena(), s.first(), cut);
    let second = Segment::of(s.arena(), s.first() + cut, s.size() - cut);
    same(rt, first.first() % mine.record_alignment(), 0);
    same(rt, second.first() % others.record_alignment(), 0);
    let mut answer = query_segment(alloc, m, mine, &first).expect(rt, "an answer");
    let next = query_segment(alloc, m, others, &second).expect(rt, "an answer");
    same(rt, can_join(answer.found(), next.found()), true);
    answer.join(next).expect(rt, "room");
    prints(rt, mine, &answer, wanted);
}

/// What two runs of longs answer together, the first of which has so many.
fn joins<R: Abort + AllocGlobal + Wait>(
    rt: &R,
    numbers: &[i64],
    count: usize,
    mine: &Query,
    others: &Query,
    wanted: &str,
) {
    same(rt, numbers.len() <= 8, true);
    same(rt, count <= numbers.len(), true);
    let mut m = Mono::make(rt.alloc(), 1024);
    let s = longs(rt, &mut m, numbers);
    joins_at(rt, &mut m, &s, 8 * count as u64, mine, others, wanted);
}

fn push_numbers<R: Abort>(rt: &R, numbers: &mut Vec<i64>, words: &str) {
    for word in words.split_whitespace() {
        let number: i64 = word.parse().expect(rt, "a number");
        same(rt, numbers.push(number).is_ok(), true);
    }
}

/// A row: two runs of longs, parted by a slash, a query, and the lines of its joined answer.
fn joins_row<R: Abort + AllocGlobal + Wait>(rt: &R, row: &str) {
    let (runs, rest) = row.split_once('|').unwrap_or((row, ""));
    let (text, lines) = rest.split_once('|').unwrap_or((rest, ""));
    let (first, second) = runs.split_once('/').unwrap_or((runs, ""));
    let wanted = lines.replace(rt.alloc(), "|", "\n").expect(rt, "lines");
    let mut numbers = Vec::new(rt.alloc());
    push_numbers(rt, &mut numbers, first);
    let count = numbers.len();
    push_numbers(rt, &mut numbers, second);
    let q = query_over(rt, text, &Layout::value(ValueKind::Long));
    joins(rt, numbers.as_slice(), count, &q, &q, wanted.as_str());
}

const RUNS: &str = "\
-9223372036854775808 -9223372036854775808/|sum(.)|sum(.) -18446744073709551616|
-9223372036854775808/|min(.)|min(.) -9223372036854775808|
/|min(.)|min(.) none|
0/|max(.)|max(.) 0|
/|max(.)|max(.) none|
1 2 3 4 5 0 0 -1/|list(.)|list(.) 1 2 3 4 5 0 0 -1|
/|list(.)|list(.)|
9223372036854775807 0/9223372036854775807 3 -3|count,sum(.),list(.)|count 5|sum(.) 18446744073709551614|\
     list(.) 9223372036854775807 0 9223372036854775807 3 -3|
/-3|min(.),max(.)|min(.) -3|max(.) -3|
0/|min(.),max(.)|min(.) 0|max(.) 0|
5/-7|min(.),max(.)|min(.) -7|max(.) 5|
-9223372036854775808/9223372036854775807|min(.),max(.)|min(.) -9223372036854775808|max(.) 9223372036854775807|";

#[test]
fn joins_and_prints_what_both_found(rt: HostRuntime) {
    for row in RUNS.lines() {
        joins_row(&rt, row);
    }
}

/// Numbers are kept as bytes until one is no byte.
#[test]
fn bytes_and_longs_join(rt: HostRuntime) {
    let bytes = query_over(&rt, "list(.)", &Layout::value(ValueKind::Byte));
    let wide = query_over(&rt, "list(.)", &Layout::value(ValueKind::Long));
    let wanted = "list(.) -128 127 -1 -1 -1 -1 -1 -1 128 -1 -9223372036854775808\n";
    joins(&rt, &[-32_896, 128, -1, i64::MIN], 1, &bytes, &wide, wanted);
}

#[test]
fn listed_longs_stand_in_their_order(rt: HostRuntime) {
    let longs = vec![in rt.alloc(); 3, -1, i64::MIN].expect(&rt, "room");
    let numbers = Numbers::of(rt.alloc(), longs);
    same(&rt, numbers.len(), 3);
    same(&rt, numbers.at(0), 3);
    same(&rt, numbers.at(1), -1);
    same(&rt, numbers.at(2), i64::MIN);
}

#[test]
fn answers_over_no_records(rt: HostRuntime) {
    let text = "count,sum(.price),min(.price),max(.tags[]),list(.tags[])";
    let q = query_over(&rt, text, &order(&rt));
    let answer = of_no_records(rt.alloc(), &q).expect(&rt, "an answer");
    let wanted = "count 0\nsum(.price) 0\nmin(.price) none\nmax(.tags[]) none\nlist(.tags[])\n";
    prints(&rt, &q, &answer, wanted);
}

#[test]
fn joins_the_answers_over_each_record(rt: HostRuntime) {
    let text = "count,sum(.price),min(.price),max(.price),list(.tags[])";
    let q = query_over(&rt, text, &order(&rt));
    let mut m = Mono::make(rt.alloc(), 1024);
    let s = two_orders(&rt, &mut m);
    let wanted =
        "count 2\nsum(.price) 210\nmin(.price) -40\nmax(.price) 250\nlist(.tags[]) 1 2 3 4 5 0 0 -1\n";
    joins_at(&rt, &mut m, &s, 24, &q, &q, wanted);
}
