mod again;
mod ample;
mod beside;
mod gates;
mod tallies;
mod then;

ghost use Rattle.std.specs.Prelude.{◌≡◌, ◌<◌, ◌≤◌, ◌≢◌, []};
ghost use Rattle.fm_rule_calls.specs.Kept.{Lasts};
ghost use Rattle.fm_rule_calls.specs.Told.{view_of_pass};
ghost use Rattle.fm_gate.specs.Needs.{IsInside, IsOutside};
ghost use Rattle.fm_rule_facts.specs.Views.{given_of, span, IsKnown as HasArena};
ghost use Rattle.fm_segment.specs.Access.{IsKnown};

use crate::compared::same;
use crate::layouts::{push_named, query_over, structure};
use crate::printed::printed;
use fm_base::{ArenaId, Kind, Refusal};
use fm_close::close;
use fm_gate::{allocate, enter, leave, open_arena, store};
use fm_io::{FreeGate, Gate};
use fm_lanes::ValueKind;
use fm_layout::Layout;
use fm_records::Query;
use fm_rule::{Pass, Pool};
use fm_segment::Segment;
use fm_words::Shape;
use fm_workers::query_with;
use std::alloc::AllocGlobal;
use std::process::Abort;
use std::sync::Wait;
use std::thread::Threads;

/// A pool of so many passes, whose arenas have so many words each.
fn made<R: Abort + AllocGlobal>(rt: &R, passes: u32, words: u32) -> (Pool, Pass)
    requires some { 0 < passes }
    requires few { passes < 65 }
    requires some_words { 0 < words }
    requires few_words { words ≤ 16384 }
    ensures outside { IsOutside result.0 result.1 }
    ensures no_page { result.1.pages ≡ [] }
    ensures wide { span result.0.shape ≡ words }
{
    let shape = Shape {
        passes,
        slots: 2,
        pages: 2,
        page_words: words,
        reach: 1,
        generations: 1,
    };
    Pool::make(rt.alloc(), shape).expect(rt, "words")
}

/// Eight records of an int `id` in the low half of a word, and an int `amount` in the high half.
const RECORDS: [u64; 8] = [
    0x0000_0005_0000_0001,
    0xffff_ffff_0000_0002,
    0x0000_0007_0000_0003,
    0x0000_0000_0000_0004,
    0x0000_0002_0000_0005,
    0x0000_0009_0000_0006,
    0xffff_fff8_0000_0007,
    0x0000_0003_0000_0008,
];

/// Stores into an arena that has given 64 bytes, and can still act in it.
fn write(pool: &Pool, pass: &mut Pass, a: ArenaId, word: u64, v: u64)
    requires low { word < 8 }
    requires inside { IsInside pool.now pass.old a }
    requires given { 64 ≤ given_of pass.old a }
    requires known { HasArena pass.old a }
    ensures inside { IsInside pool.now pass.new a }
    ensures given { 64 ≤ given_of pass.new a }
    ensures known { HasArena pass.new a }
    ensures pages { pass.new.pages ≡ pass.old.pages }
{
    store(pool, pass, word, v);
}

/// Stores those records.
fn write_records(pool: &Pool, pass: &mut Pass, a: ArenaId)
    requires inside { IsInside pool.now pass.old a }
    requires given { 64 ≤ given_of pass.old a }
    requires known { HasArena pass.old a }
    ensures inside { IsInside pool.now pass.new a }
    ensures given { 64 ≤ given_of pass.new a }
    ensures known { HasArena pass.new a }
    ensures pages { pass.new.pages ≡ pass.old.pages }
{
    write(pool, pass, a, 0, RECORDS[0]);
    write(pool, pass, a, 1, RECORDS[1]);
    write(pool, pass, a, 2, RECORDS[2]);
    write(pool, pass, a, 3, RECORDS[3]);
    write(pool, pass, a, 4, RECORDS[4]);
    write(pool, pass, a, 5, RECORDS[5]);
    write(pool, pass, a, 6, RECORDS[6]);
    write(pool, pass, a, 7, RECORDS[7]);
}

/// So many bytes at the front of a fresh arena.
fn fresh<R: Abort + Wait>(rt: &R, pool: &Pool, pass: &mut Pass, kind: Kind, size: u64) -> Segment
    requires outside { IsOutside pool.now pass.old }
    requires no_page { pass.old.pages ≡ [] }
    requires few { size ≤ 131072 }
    ensures outside { IsOutside pool.now pass.new }
    ensures no_page { pass.new.pages ≡ [] }
    ensures lasts { Lasts pass.old pass.new }
    ensures known { IsKnown (view_of_pass pass.new) result }
    ensures first { result.first ≡ 0 }
    ensures size { result.size ≡ size }
{
    let a = open_arena(rt, pool, pass, kind).expect(rt, "a slot");
    same(rt, allocate(rt, pool, pass, a, size, 8), Ok(0));
    Segment::of(a, 0, size)
}

/// A segment of those records, in a fresh arena.
fn stocked<R: Abort + Wait>(rt: &R, pool: &Pool, pass: &mut Pass, kind: Kind) -> Segment
    requires outside { IsOutside pool.now pass.old }
    requires no_page { pass.old.pages ≡ [] }
    ensures outside { IsOutside pool.now pass.new }
    ensures no_page { pass.new.pages ≡ [] }
    ensures known { IsKnown (view_of_pass pass.new) result }
    ensures first { result.first ≡ 0 }
    ensures size { result.size ≡ 64 }
{
    let a = open_arena(rt, pool, pass, kind).expect(rt, "a slot");
    same(rt, allocate(rt, pool, pass, a, 64, 8), Ok(0));
    same(rt, enter(pool, pass, a), Ok(()));
    write_records(pool, pass, a);
    leave(pool, pass);
    Segment::of(a, 0, 64)
}

/// What a query over these records asks for.
const ASKED: &str = "count,sum(.amount),list(.id) where .amount>=2";

fn query<R: Abort + AllocGlobal>(rt: &R) -> Query {
    let mut members = Vec::new(rt.alloc());
    push_named(rt, &mut members, "id", Layout::value(ValueKind::Int));
    push_named(rt, &mut members, "amount", Layout::value(ValueKind::Int));
    query_over(rt, ASKED, &structure(rt, members))
}

/// What so many passes answer, as text.
fn asked<R: Abort + AllocGlobal + Threads + Wait + Sync, G: Gate>(
    rt: &R,
    pool: &Pool,
    pass: &mut Pass,
    q: &Query,
    s: &Segment,
    threads: u32,
    gate: &G,
) -> Result<Vec<u8>, Refusal>
    requires outside { IsOutside pool.now pass.old }
    requires known { IsKnown (view_of_pass pass.old) s.now }
    requires some { 0 < threads }
    requires few { threads ≤ 16 }
    ensures outside { IsOutside pool.now pass.new }
    ensures known { IsKnown (view_of_pass pass.new) s.now }
{
    let alloc = rt.alloc();
    same(rt, s.first() % q.record_alignment(), 0);
    match query_with(rt, alloc, pool, pass, q, s, threads, gate) {
        Ok(answer) => printed(alloc, q, &answer),
        Err(refusal) => Err(refusal),
    }
}

/// What so many passes answer to that query.
fn answers<R: Abort + AllocGlobal + Threads + Wait + Sync, G: Gate>(
    rt: &R,
    pool: &Pool,
    pass: &mut Pass,
    s: &Segment,
    threads: u32,
    gate: &G,
    wanted: &[u8],
)
    requires outside { IsOutside pool.now pass.old }
    requires known { IsKnown (view_of_pass pass.old) s.now }
    requires some { 0 < threads }
    requires few { threads ≤ 16 }
    ensures outside { IsOutside pool.now pass.new }
    ensures known { IsKnown (view_of_pass pass.new) s.now }
{
    let q = query(rt);
    let found = asked(rt, pool, pass, &q, s, threads, gate);
    same(rt, found.as_deref(), Ok(wanted));
}

fn refuses<R: Abort + AllocGlobal + Threads + Wait + Sync>(
    rt: &R,
    pool: &Pool,
    pass: &mut Pass,
    s: &Segment,
    threads: u32,
    wanted: Refusal,
)
    requires outside { IsOutside pool.now pass.old }
    requires known { IsKnown (view_of_pass pass.old) s.now }
    requires some { 0 < threads }
    requires few { threads ≤ 16 }
    ensures outside { IsOutside pool.now pass.new }
    ensures known { IsKnown (view_of_pass pass.new) s.now }
{
    let q = query(rt);
    let found = asked(rt, pool, pass, &q, s, threads, &FreeGate);
    same(rt, found.err(), Some(wanted));
}

/// It is the same for each count of threads, also where they are more than the records.
const ANSWER: &[u8] = b"count 5\nsum(.amount) 26\nlist(.id) 1 3 5 6 8\n";

#[test]
fn answers_are_the_same_for_each_count_of_threads(rt: HostRuntime) {
    let (pool, mut pass) = made(&rt, 17, 8);
    let s = stocked(&rt, &pool, &mut pass, Kind::Shared);
    answers(&rt, &pool, &mut pass, &s, 1, &FreeGate, ANSWER);
    answers(&rt, &pool, &mut pass, &s, 2, &FreeGate, ANSWER);
    answers(&rt, &pool, &mut pass, &s, 8, &FreeGate, ANSWER);
    answers(&rt, &pool, &mut pass, &s, 16, &FreeGate, ANSWER);
    same(&rt, pool.whole(&mut pass), true);
}

#[test]
fn sixteen_passes_answer_over_no_records(rt: HostRuntime) {
    let (pool, mut pass) = made(&rt, 17, 8);
    let s = stocked(&rt, &pool, &mut pass, Kind::Shared);
    let none = s.as_slice(64, 0).expect(&rt, "no bytes");
    let wanted = b"count 0\nsum(.amount) 0\nlist(.id)\n";
    answers(&rt, &pool, &mut pass, &none, 16, &FreeGate, wanted);
}

#[test]
fn ragged_records_are_not_asked(rt: HostRuntime) {
    let (pool, mut pass) = made(&rt, 3, 8);
    let s = stocked(&rt, &pool, &mut pass, Kind::Shared);
    let ragged = s.as_slice(0, 20).expect(&rt, "two records and a half");
    refuses(&rt, &pool, &mut pass, &ragged, 2, Refusal::Ragged(4));
    same(&rt, pool.whole(&mut pass), true);
}

#[test]
fn a_confined_arena_is_not_asked(rt: HostRuntime) {
    let (pool, mut pass) = made(&rt, 3, 8);
    let s = stocked(&rt, &pool, &mut pass, Kind::Confined);
    refuses(&rt, &pool, &mut pass, &s, 2, Refusal::WrongThread);
}

#[test]
fn a_closed_arena_is_not_asked(rt: HostRuntime) {
    let (pool, mut pass) = made(&rt, 3, 8);
    let s = stocked(&rt, &pool, &mut pass, Kind::Shared);
    same(&rt, close(&rt, &pool, &mut pass, s.arena()), Ok(()));
    refuses(&rt, &pool, &mut pass, &s, 2, Refusal::Closed);
    same(&rt, pool.whole(&mut pass), true);
}
