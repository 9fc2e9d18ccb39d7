//! Two arenas of a pool, of which one is closed by another pass at a call of this one.
ghost use Rattle.std.specs.Prelude.{◌≡◌, ◌≤◌, ◌+◌, None};
ghost use Rattle.fm_rule_facts.specs.Views.{given_of};
ghost use Rattle.fm_rule.specs.Passes.{IsOf};
ghost use Rattle.fm_rule_calls.specs.Told.{view_of_pass};
ghost use Rattle.fm_gate.specs.Needs.{CanVisit, IsOutside};
ghost use Rattle.fm_segment.specs.Access.{IsKnown};
ghost use Rattle.fm_arena.specs.Lasting.{SamePool};
ghost use Rattle.fm_arena.specs.Shares.{CanShare};

use crate::tests::cut_off::closer::{Closer, Walk};
use crate::tests::pools::pool_as;
use crate::tests::segment_calls::{Call, Part, calls, fresh};
use fm_arena::{Arena, Shared, keeps_its_pool};
use fm_arena_braided::Braided;
use fm_base::Kind;
use fm_gate::a_crew_stands;
use fm_rule::{Pass, Pool};
use fm_segment::Segment;
use fm_words::Shape;
use std::alloc::AllocGlobal;
use std::process::Abort;
use std::sync::Wait;

/// The bytes of three longs.
pub(crate) const LONGS: Part = Part {
    at: 0,
    size: 24,
    is_read_only: false,
};

/// Two passes, and two slots of one page of three longs, for two arenas each.
pub(crate) fn made<R: Abort + AllocGlobal>(rt: &R) -> (Pool, Pass)
    ensures { CanShare result.0 result.1 }
{
    let shape = Shape {
        passes: 2,
        slots: 2,
        pages: 2,
        page_words: 3,
        reach: 1,
        generations: 2,
    };
    pool_as(rt, shape)
}

/// A shared arena's three longs.
fn longs_of<R: Abort + Wait>(rt: &R, m: &mut Shared) -> Segment
    requires { m.old.inside ≡ None }
    ensures outside { m.new.inside ≡ None }
    ensures known { IsKnown (view_of_pass m.new) result }
    ensures size { result.size ≡ 24 }
    ensures same { SamePool m.old m.new }
{
    keeps_its_pool();
    let arena = Arena::start(rt, m, Kind::Shared).expect(rt, "a slot");
    arena.allocate(rt, m, 24, 8).expect(rt, "bytes")
}

/// The pass learns what the other one has seen.
fn told(pool: &Pool, pass: Pass, ours: &mut Shared, s: &Segment) -> Pass
    requires outside { IsOutside pool.now pass }
    requires ours { IsOf pool.now ours.old }
    requires known { IsKnown (view_of_pass ours.old) s.now }
    ensures ours { ours.new ≡ ours.old }
    ensures can { CanVisit pool.now result s.now.arena }
    ensures given { s.now.first + s.now.size ≤ given_of result s.now.arena }
{
    a_crew_stands();
    let mut pass = pass;
    let note = ours.note();
    pool.meet(&mut pass, note);
    pass
}

/// A memory whose other pass closes the first segment's arena at the turn `at`; that segment, with the longs 1, 2 and 3,
/// and one of another arena, with zeros.
pub(crate) fn scene<'a, R: Abort + Wait>(
    rt: &R,
    pool: &'a Pool,
    first: Pass,
    at: u64,
) -> (Braided<Shared<'a>, Closer<'a>>, Segment, Segment)
    requires { CanShare pool.now first }
    ensures outside { result.0.memory.inside ≡ None }
    ensures first { IsKnown (view_of_pass result.0.memory) result.1 }
    ensures second { IsKnown (view_of_pass result.0.memory) result.2 }
{
    let mut first = first;
    let second = pool.draw(rt, &mut first).expect(rt, "a pass");
    let mut ours = Shared::new(pool, second);
    let source = longs_of(rt, &mut ours);
    let theirs = told(pool, first, &mut ours, &source);
    let target = fresh(rt, &mut ours, Kind::Shared, 24);
    let longs = [
        (Call::Set(LONGS, 0, 1), Ok(0)),
        (Call::Set(LONGS, 8, 2), Ok(0)),
        (Call::Set(LONGS, 16, 3), Ok(0)),
    ];
    calls(rt, &mut ours, &source, &longs);
    let closer = Closer::new(pool, theirs, source.arena(), at);
    (Braided::new(ours, closer), source, target)
}

/// The memory again, once the arena is closed, of which this was found; the next arena in its slot begins with zeros.
pub(crate) fn ended<'a, R: Abort + Wait>(
    rt: &R,
    braided: Braided<Shared<'a>, Closer<'a>>,
    target: &Segment,
    wanted: Walk,
) -> Shared<'a>
    requires outside { braided.memory.inside ≡ None }
    requires target { IsKnown (view_of_pass braided.memory) target.now }
    ensures outside { result.inside ≡ None }
    ensures target { IsKnown (view_of_pass result) target.now }
{
    let (mut ours, closer) = braided.into_parts();
    closer.finish(rt, wanted);
    let next = fresh(rt, &mut ours, Kind::Shared, 24);
    let zeros = [
        (Call::Get(LONGS, 0), Ok(0)),
        (Call::Get(LONGS, 8), Ok(0)),
        (Call::Get(LONGS, 16), Ok(0)),
    ];
    calls(rt, &mut ours, &next, &zeros);
    ours
}
