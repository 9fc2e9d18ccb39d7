//! What the tests need of a pool.
ghost use Rattle.fm_rule_calls.specs.Kept.{Lasts};
ghost use Rattle.fm_gate.specs.Crews.{StandsOn};
ghost use Rattle.fm_gate.specs.Needs.{CanLeave, CanVisit, IsInside, IsOutside};
ghost use Rattle.std.specs.Prelude.{◌≡◌, ◌≤◌, ◌<◌, ◌+◌, [], length, vec_len};
ghost use Rattle.fm_rule_facts.specs.Views.{IsKnown};
ghost use Rattle.fm_base.specs.declared.arena_id.ArenaId.{ArenaId};
ghost use Rattle.fm_async.specs.Sets.{CanAdd, CanBegin, set_of};
ghost use Rattle.fm_async_tests.specs.Knows.{Knows};

use crate::tests::same;
use fm_async::{Closer, SetCloser, Start};
use fm_base::{ArenaId, Kind};
use fm_gate::{a_crew_stands, enter, open_arena};
use fm_rule::{Pass, Pool};
use fm_words::Shape;
use std::alloc::AllocGlobal;
use std::process::Abort;
use std::sync::Wait;

/// A pool of two passes, whose only slot can have two arenas; and its first pass.
pub(crate) fn small_pool<R: Abort + AllocGlobal>(rt: &R) -> (Pool, Pass)
    ensures { IsOutside result.0 result.1 }
{
    let shape = Shape {
        passes: 2,
        slots: 1,
        pages: 1,
        page_words: 1,
        reach: 1,
        generations: 2,
    };
    Pool::make(rt.alloc(), shape).expect(rt, "words")
}

/// Opens an arena.
pub(crate) fn opened<R: Abort + Wait>(rt: &R, pool: &Pool, pass: &mut Pass) -> ArenaId
    requires { IsOutside pool.now pass.old }
    ensures { CanVisit pool.now pass.new result }
{
    open_arena(rt, pool, pass, Kind::Shared).expect(rt, "a slot")
}

/// A pass is drawn, and comes into an arena that its giver knows.
pub(crate) fn reader<R: Abort + Wait>(rt: &R, pool: &Pool, giver: &mut Pass, arena: ArenaId) -> Pass
    requires { CanVisit pool.now giver.old arena }
    ensures giver { CanVisit pool.now giver.new arena }
    ensures inside { IsInside pool.now result arena }
{
    let mut theirs = drawn(rt, pool, giver);
    enter(pool, &mut theirs, arena).expect(rt, "alive");
    theirs
}

/// A pass is drawn.
pub(crate) fn drawn<R: Abort + Wait>(rt: &R, pool: &Pool, giver: &mut Pass) -> Pass
    requires { IsOutside pool.now giver.old }
    ensures giver { StandsOn pool.now giver.old giver.new }
    ensures begin { CanBegin pool.now result }
    ensures lasts { Lasts giver.old result }
{
    a_crew_stands();
    pool.draw(rt, giver).expect(rt, "a number")
}

/// The close of an arena is begun.
pub(crate) fn begun<'p, R: Abort>(rt: &R, pool: &'p Pool, pass: Pass, arena: ArenaId) -> Closer<'p>
    requires { CanVisit pool.now pass arena }
{
    match Closer::start(pool, pass, arena) {
        Start::Begun(closer) => closer,
        Start::Refused(_, _) => panic!(rt; "refused"),
    }
}

/// A pool of four passes and 64 slots, each of which can have two arenas; and its first pass.
pub(crate) fn wide_pool<R: Abort + AllocGlobal>(rt: &R) -> (Pool, Pass)
    ensures { CanBegin result.0 result.1 }
{
    let shape = Shape {
        passes: 4,
        slots: 64,
        pages: 1,
        page_words: 1,
        reach: 1,
        generations: 2,
    };
    Pool::make(rt.alloc(), shape).expect(rt, "words")
}

/// Opens so many arenas.
pub(crate) fn opened_all<R: Abort + Wait + AllocGlobal>(
    rt: &R,
    pool: &Pool,
    pass: &mut Pass,
    count: usize,
) -> Vec<ArenaId>
    requires { CanBegin pool.now pass.old }
    ensures knows { Knows pool.now pass.new result.items }
    ensures len { vec_len result ≡ count }
{
    let mut arenas = Vec::new(rt.alloc());
    for _ in 0..count {
        open_more(rt, pool, pass, &mut arenas);
    }
    arenas
}

/// Opens one arena more.
fn open_more<R: Abort + Wait>(rt: &R, pool: &Pool, pass: &mut Pass, arenas: &mut Vec<ArenaId>)
    requires { Knows pool.now pass.old arenas.old.items }
    ensures knows { Knows pool.now pass.new arenas.new.items }
    ensures len { vec_len arenas.new ≡ vec_len arenas.old + 1 }
{
    let arena = opened_beside(rt, pool, pass, Kind::Shared);
    arenas.push(arena).expect(rt, "memory");
}

/// Opens an arena with a pass that has no close.
pub(crate) fn opened_beside<R: Abort + Wait>(
    rt: &R,
    pool: &Pool,
    pass: &mut Pass,
    kind: Kind,
) -> ArenaId
    requires { CanBegin pool.now pass.old }
    ensures begin { CanBegin pool.now pass.new }
    ensures known { IsKnown pass.new result }
    ensures lasts { Lasts pass.old pass.new }
{
    open_arena(rt, pool, pass, kind).expect(rt, "a slot")
}

/// A pass is drawn, and comes into one of the arenas.
pub(crate) fn reader_in<R: Abort + Wait>(
    rt: &R,
    pool: &Pool,
    giver: &mut Pass,
    arenas: &[ArenaId],
    i: usize,
) -> Pass
    requires knows { Knows pool.now giver.old arenas.now }
    requires there { i < length arenas.now }
    ensures knows { Knows pool.now giver.new arenas.now }
    ensures inside { CanLeave pool.now result }
{
    let mut theirs = drawn(rt, pool, giver);
    enter(pool, &mut theirs, arenas[i]).expect(rt, "alive");
    theirs
}

/// A set of the arenas.
pub(crate) fn filled<'p, R: Abort + AllocGlobal>(
    rt: &R,
    pool: &'p Pool,
    pass: Pass,
    arenas: &[ArenaId],
) -> SetCloser<'p>
    requires knows { Knows pool.now pass arenas.now }
    requires few { length arenas.now ≤ 64 }
{
    let mut set = new_set(rt, pool, pass);
    for arena in arenas {
        add(rt, &mut set, *arena);
    }
    set
}

/// A set of no arenas.
pub(crate) fn new_set<'p, R: Abort + AllocGlobal>(
    rt: &R,
    pool: &'p Pool,
    pass: Pass,
) -> SetCloser<'p>
    requires { CanBegin pool.now pass }
    ensures { result ≡ set_of pool.now pass 64 [] }
{
    match SetCloser::empty(rt.alloc(), pool, pass, 64) {
        Ok(set) => set,
        Err(_) => panic!(rt; "no memory"),
    }
}

/// One arena more is added.
fn add<R: Abort>(rt: &R, set: &mut SetCloser<'_>, id: ArenaId)
    requires { CanAdd set.old id }
    ensures known { (a : ArenaId) → IsKnown set.old.pass a → IsKnown set.new.pass a }
    ensures len { length set.new.closes ≡ length set.old.closes + 1 }
    ensures room { set.new.room ≡ set.old.room }
{
    same(rt, set.add(id), Ok(()));
}
