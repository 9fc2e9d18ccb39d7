ghost use Rattle.std.specs.Prelude.{◌≡◌, ◌+◌, ◌*◌, ◌<◌, ◌≤◌, [], length, true};
ghost use Rattle.fm_rule_calls.specs.Kept.{Lasts};
ghost use Rattle.fm_rule_calls.specs.Told.{view_of_pass};
ghost use Rattle.fm_rule_facts.specs.Views.{span};
ghost use Rattle.fm_gate.specs.Needs.{IsOutside};
ghost use Rattle.fm_segment.specs.Access.{IsKnown};

use fm_base::Kind;
use fm_gate::{allocate, enter, leave, open_arena, store};
use fm_rule::{Pass, Pool};
use fm_segment::Segment;
use fm_words::Shape;
use std::alloc::AllocGlobal;
use std::fmt::Debug;
use std::process::Abort;
use std::sync::Wait;

pub(crate) fn same<R: Abort, T: PartialEq + Debug + Drop>(rt: &R, found: T, wanted: T)
    ensures { T.eq found wanted ≡ true }
{
    assert_eq!(rt; found, wanted);
}

/// A pool of so many passes, with two arenas of 512 words each.
pub(crate) fn made<R: Abort + AllocGlobal>(rt: &R, passes: u32) -> (Pool, Pass)
    requires some { 0 < passes }
    requires few { passes < 65 }
    ensures outside { IsOutside result.0 result.1 }
    ensures no_page { result.1.pages ≡ [] }
{
    let shape = Shape {
        passes,
        slots: 2,
        pages: 2,
        page_words: 512,
        reach: 1,
        generations: 1,
    };
    Pool::make(rt.alloc(), shape).expect(rt, "words")
}

/// So many bytes at the front of a fresh arena.
fn fresh<R: Abort + Wait>(rt: &R, pool: &Pool, pass: &mut Pass, kind: Kind, size: u64) -> Segment
    requires outside { IsOutside pool.now pass.old }
    requires no_page { pass.old.pages ≡ [] }
    requires few { size ≤ 4096 }
    ensures outside { IsOutside pool.now pass.new }
    ensures no_page { pass.new.pages ≡ [] }
    ensures lasts { Lasts pass.old pass.new }
    ensures known { IsKnown (view_of_pass pass.new) result }
    ensures first { result.first ≡ 0 }
    ensures size { result.size ≡ size }
{
    let a = open_arena(rt, pool, pass, kind).expect(rt, "a slot");
    same(rt, allocate(rt, pool, pass, a, size, 8), Ok(0));
    Segment::of(a, 0, size)
}

/// The records and the places of a table, each in an arena of its own.
#[derive(Drop)]
pub(crate) struct Segments {
    pub(crate) records: Segment,
    pub(crate) places: Segment,
}

/// So many longs as records, and so many places, all of them 0.
pub(crate) fn zeros<R: Abort + Wait>(
    rt: &R,
    pool: &Pool,
    pass: &mut Pass,
    kinds: (Kind, Kind),
    longs: u64,
    places: u64,
) -> Segments
    requires outside { IsOutside pool.now pass.old }
    requires no_page { pass.old.pages ≡ [] }
    requires few { longs ≤ 512 }
    requires few_places { places ≤ 256 }
    ensures outside { IsOutside pool.now pass.new }
    ensures known { IsKnown (view_of_pass pass.new) result.records }
    ensures places { IsKnown (view_of_pass pass.new) result.places }
    ensures first { result.records.first ≡ 0 }
    ensures size { result.records.size ≡ 8 * longs }
{
    let records = fresh(rt, pool, pass, kinds.0, 8 * longs);
    let places = fresh(rt, pool, pass, kinds.1, 16 * places);
    Segments { records, places }
}

/// Stores a long.
fn put<R: Abort>(rt: &R, pool: &Pool, pass: &mut Pass, s: &Segment, word: u64, long: i64)
    requires outside { IsOutside pool.now pass.old }
    requires known { IsKnown (view_of_pass pass.old) s.now }
    requires first { s.now.first ≡ 0 }
    requires within { 8 * word + 8 ≤ s.now.size }
    ensures outside { IsOutside pool.now pass.new }
    ensures lasts { Lasts pass.old pass.new }
{
    enter(pool, pass, s.arena()).expect(rt, "open");
    store(pool, pass, word, long.cast_unsigned());
    leave(pool, pass);
}

/// Stores longs, one behind the other.
pub(crate) fn fill<R: Abort>(rt: &R, pool: &Pool, pass: &mut Pass, both: &Segments, longs: &[i64])
    requires outside { IsOutside pool.now pass.old }
    requires known { IsKnown (view_of_pass pass.old) both.now.records }
    requires places { IsKnown (view_of_pass pass.old) both.now.places }
    requires first { both.now.records.first ≡ 0 }
    requires within { 8 * length longs.now ≤ both.now.records.size }
    ensures outside { IsOutside pool.now pass.new }
    ensures known { IsKnown (view_of_pass pass.new) both.now.records }
    ensures places { IsKnown (view_of_pass pass.new) both.now.places }
{
    for k in 0..longs.len() {
        put(rt, pool, pass, &both.records, k as u64, longs[k]);
    }
}
