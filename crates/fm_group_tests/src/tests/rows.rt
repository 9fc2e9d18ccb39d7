ghost use Rattle.std.specs.Prelude.{◌≡◌, None};
ghost use Rattle.fm_base.specs.Outcomes.{Lasts};
ghost use Rattle.fm_segment.specs.Learnt.{CanUse};
ghost use Rattle.fm_group.specs.Asked.{IsReady};

use crate::tests::calls::{counts, fresh, has, longs_in, put, same, table_in};
use fm_base::{Kind, Memory, Refusal};
use fm_group::{CountTable, PlaceOrder};
use fm_mono::Mono;
use fm_segment::Segment;
use std::alloc::Global;
use std::process::Abort;
use std::sync::Wait;

/// Numbers, and what the counts of all of them answer and leave in a table of so many places.
#[derive(Drop)]
pub(crate) struct Row {
    pub(crate) order: PlaceOrder,
    pub(crate) places: u64,
    pub(crate) numbers: &'static [i64],
    /// The claim and the count of the first places before.
    pub(crate) before: &'static [i64],
    pub(crate) answers: &'static [Result<u64, Refusal>],
    /// The claim and the count of each place in the end.
    pub(crate) words: &'static [i64],
    /// The numbers that places are claimed for then, and their counts.
    pub(crate) groups: &'static [(i64, u64)],
}

/// Puts longs into a segment, one behind the other.
fn put_all<R: Abort + Wait, M: Memory>(rt: &R, m: &mut M, s: &Segment, numbers: &[i64])
    requires { CanUse (M.view m.old) s.now }
    ensures known { CanUse (M.view m.new) s.now }
    ensures lasts { Lasts (M.view m.old) (M.view m.new) }
{
    let mut at = 0;
    for &number in numbers {
        put(rt, m, s, at, number);
        assert!(rt; at < 1000);
        at += 8;
    }
}

/// Counts all, in order.
fn count_all<R: Abort, M: Memory>(
    rt: &R,
    m: &mut M,
    table: &CountTable,
    answers: &[Result<u64, Refusal>],
)
    requires { IsReady (M.view m.old) table.now }
    ensures ready { IsReady (M.view m.new) table.now }
{
    let mut ordinal = 0;
    for &answer in answers {
        counts(rt, m, table, ordinal, answer);
        assert!(rt; ordinal < 1000);
        ordinal += 1;
    }
}

/// The table's groups are these.
fn groups_are<R: Abort, M: Memory>(
    rt: &R,
    alloc: Global,
    m: &mut M,
    table: &CountTable,
    wanted: &[(i64, u64)],
)
    requires { IsReady (M.view m.old) table.now }
    ensures { IsReady (M.view m.new) table.now }
{
    let groups = table.read_groups(alloc, m).expect(rt, "groups");
    same(rt, groups.len(), wanted.len());
    for k in 0..wanted.len() {
        assert!(rt; k < groups.len());
        same(rt, groups.at(k), wanted[k]);
    }
}

/// These longs stand in the segment.
fn all_stand<R: Abort, M: Memory>(rt: &R, m: &mut M, s: &Segment, words: &[i64])
    requires { CanUse (M.view m.old) s.now }
    ensures { CanUse (M.view m.new) s.now }
{
    let mut at = 0;
    for &word in words {
        has(rt, m, s, at, word);
        assert!(rt; at < 1000);
        at += 8;
    }
}

/// What a row says, over any memory.
pub(crate) fn play<R: Abort + Wait, M: Memory>(rt: &R, alloc: Global, m: &mut M, row: &Row)
    requires { (M.view m.old).inside ≡ None }
{
    assert!(rt; row.places < 100);
    assert!(rt; row.numbers.len() < 100);
    let records = fresh(rt, m, Kind::Shared, 8 * row.numbers.len() as u64);
    put_all(rt, m, &records, row.numbers);
    let places = fresh(rt, m, Kind::Shared, 16 * row.places);
    put_all(rt, m, &places, row.before);
    let table = table_in(rt, places, records, longs_in(rt, alloc, records), row.order);
    count_all(rt, m, &table, row.answers);
    groups_are(rt, alloc, m, &table, row.groups);
    all_stand(rt, m, &places, row.words);
}

#[test]
fn places_are_tried_from_the_remainder_on(rt: HostRuntime) {
    for row in [
        // one place, and another number
        Row {
            order: PlaceOrder::ByRemainder,
            places: 1,
            numbers: &[7, 7, 9],
            before: &[],
            answers: &[Ok(0), Ok(0), Err(Refusal::TableFull)],
            words: &[1, 2],
            groups: &[(7, 2)],
        },
        // as many places as values
        Row {
            order: PlaceOrder::ByRemainder,
            places: 4,
            numbers: &[0, 1, 2, 3],
            before: &[],
            answers: &[Ok(0), Ok(1), Ok(2), Ok(3)],
            words: &[1, 1, 2, 1, 3, 1, 4, 1],
            groups: &[(0, 1), (1, 1), (2, 1), (3, 1)],
        },
        // multiples of the places go one behind the other
        Row {
            order: PlaceOrder::ByRemainder,
            places: 4,
            numbers: &[0, 4, 8, 12, 16],
            before: &[],
            answers: &[Ok(0), Ok(1), Ok(2), Ok(3), Err(Refusal::TableFull)],
            words: &[1, 1, 2, 1, 3, 1, 4, 1],
            groups: &[(0, 1), (4, 1), (8, 1), (12, 1)],
        },
        // negative numbers are what they are modulo 2^64; behind the last place comes the first
        Row {
            order: PlaceOrder::ByRemainder,
            places: 4,
            numbers: &[-1, -5, -1, 3],
            before: &[],
            answers: &[Ok(3), Ok(0), Ok(3), Ok(1)],
            words: &[2, 1, 4, 1, 0, 0, 1, 2],
            groups: &[(-5, 1), (-1, 2), (3, 1)],
        },
        Row {
            order: PlaceOrder::ByRemainder,
            places: 4,
            numbers: &[i64::MIN, i64::MAX, 0, -1],
            before: &[],
            answers: &[Ok(0), Ok(3), Ok(1), Ok(2)],
            words: &[1, 1, 3, 1, 4, 1, 2, 1],
            groups: &[(i64::MIN, 1), (-1, 1), (0, 1), (i64::MAX, 1)],
        },
        // one run of places, and one place more
        Row {
            order: PlaceOrder::ByRemainder,
            places: 64,
            numbers: &[63, 0, 63],
            before: &[],
            answers: &[Ok(63), Ok(0), Ok(63)],
            words: &[2, 1],
            groups: &[(0, 1), (63, 2)],
        },
        Row {
            order: PlaceOrder::ByRemainder,
            places: 65,
            numbers: &[64, 0, 64, 63],
            before: &[],
            answers: &[Ok(64), Ok(0), Ok(64), Ok(63)],
            words: &[2, 1],
            groups: &[(0, 1), (63, 1), (64, 2)],
        },
        // no power of two
        Row {
            order: PlaceOrder::ByRemainder,
            places: 3,
            numbers: &[5, 2, 5, -1],
            before: &[],
            answers: &[Ok(2), Ok(0), Ok(2), Ok(1)],
            words: &[2, 1, 4, 1, 1, 2],
            groups: &[(-1, 1), (2, 1), (5, 2)],
        },
        Row {
            order: PlaceOrder::ByRemainder,
            places: 5,
            numbers: &[i64::MIN, i64::MAX, i64::MIN, -1, 4],
            before: &[],
            answers: &[Ok(3), Ok(2), Ok(3), Ok(0), Ok(4)],
            words: &[4, 1, 0, 0, 2, 1, 1, 2, 5, 1],
            groups: &[(i64::MIN, 2), (-1, 1), (4, 1), (i64::MAX, 1)],
        },
    ] {
        let mut m = Mono::make(rt.alloc(), 2048);
        play(&rt, rt.alloc(), &mut m, &row);
    }
}

#[test]
fn places_are_mixed_from_all_bits(rt: HostRuntime) {
    for row in [
        Row {
            order: PlaceOrder::Mixed,
            places: 4,
            numbers: &[0, 1, 2, 3],
            before: &[],
            answers: &[Ok(0), Ok(2), Ok(1), Ok(3)],
            words: &[1, 1, 3, 1, 2, 1, 4, 1],
            groups: &[(0, 1), (1, 1), (2, 1), (3, 1)],
        },
        // numbers that are equal modulo the places, and modulo 2^32
        Row {
            order: PlaceOrder::Mixed,
            places: 4,
            numbers: &[0, 1 << 32, 2 << 32, 3 << 32, 1 << 32],
            before: &[],
            answers: &[Ok(0), Ok(2), Ok(1), Ok(3), Ok(2)],
            words: &[1, 1, 3, 1, 2, 2, 4, 1],
            groups: &[(0, 1), (4294967296, 2), (8589934592, 1), (12884901888, 1)],
        },
        // numbers whose highest bits alone differ
        Row {
            order: PlaceOrder::Mixed,
            places: 8,
            numbers: &[0, 1 << 61, 1 << 62, 3 << 61],
            before: &[],
            answers: &[Ok(0), Ok(1), Ok(3), Ok(6)],
            words: &[1, 1, 2, 1, 0, 0, 3, 1, 0, 0, 0, 0, 4, 1, 0, 0],
            groups: &[
                (0, 1),
                (2305843009213693952, 1),
                (4611686018427387904, 1),
                (6917529027641081856, 1),
            ],
        },
        Row {
            order: PlaceOrder::Mixed,
            places: 4,
            numbers: &[i64::MIN, i64::MAX, 0, -1],
            before: &[],
            answers: &[Ok(2), Ok(3), Ok(0), Ok(1)],
            words: &[3, 1, 4, 1, 1, 1, 2, 1],
            groups: &[(i64::MIN, 1), (-1, 1), (0, 1), (i64::MAX, 1)],
        },
        // no power of two, and full
        Row {
            order: PlaceOrder::Mixed,
            places: 3,
            numbers: &[1, 2, 3, 1, -1],
            before: &[],
            answers: &[Ok(2), Ok(0), Ok(1), Ok(2), Err(Refusal::TableFull)],
            words: &[2, 1, 3, 1, 1, 2],
            groups: &[(1, 2), (2, 1), (3, 1)],
        },
    ] {
        let mut m = Mono::make(rt.alloc(), 1024);
        play(&rt, rt.alloc(), &mut m, &row);
    }
}

#[test]
fn claims_that_stand_are_met(rt: HostRuntime) {
    for row in [
        // a claim without its count
        Row {
            order: PlaceOrder::ByRemainder,
            places: 1,
            numbers: &[7, 7],
            before: &[1, 0],
            answers: &[Ok(0), Ok(0)],
            words: &[1, 2],
            groups: &[(7, 2)],
        },
        // one that names no value
        Row {
            order: PlaceOrder::ByRemainder,
            places: 2,
            numbers: &[7],
            before: &[0, 0, 2, 5],
            answers: &[Ok(0)],
            words: &[1, 1, 2, 5],
            groups: &[(7, 1)],
        },
        Row {
            order: PlaceOrder::ByRemainder,
            places: 1,
            numbers: &[7],
            before: &[-1, 0],
            answers: &[Err(Refusal::TableFull)],
            words: &[-1, 0],
            groups: &[],
        },
        // a number that stands at two places is counted at the first that is tried; counts wrap
        Row {
            order: PlaceOrder::ByRemainder,
            places: 2,
            numbers: &[7, 7],
            before: &[1, 3, 2, -1],
            answers: &[Ok(1), Ok(1)],
            words: &[1, 3, 2, 1],
            groups: &[(7, 4)],
        },
    ] {
        let mut m = Mono::make(rt.alloc(), 1024);
        play(&rt, rt.alloc(), &mut m, &row);
    }
}
