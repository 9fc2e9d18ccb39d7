ghost use Rattle.std.specs.Prelude.{◌≡◌, None};
ghost use Rattle.fm_rule_calls.specs.Told.{view_of_pass};
ghost use Rattle.fm_segment.specs.Access.{IsKnown};
ghost use Rattle.fm_segment.specs.Learnt.{CanUse};
ghost use Rattle.fm_arena.specs.Shares.{CanShare};
ghost use Rattle.fm_memory_doubles.specs.Beside.{AreBeside};
ghost use Rattle.fm_words.specs.Shapes.{IsValid};

use crate::tests::body::{stay_out, use_a_word};
use crate::tests::exact::use_by_itself;
use crate::tests::handles::use_values_of_another;
use crate::tests::memories::use_alone;
use crate::tests::segments::{copy_until_closed, use_of_another, use_ranges};
use fm_arena::Shared;
use fm_base::{Kind, Memory};
use fm_memory_doubles::Interrupted;
use fm_rule::{Pass, Pool};
use fm_segment::Segment;
use fm_words::Shape;
use std::alloc::{AllocGlobal, Global};
use std::process::Abort;
use std::sync::Wait;

/// A pool of this shape, and its first pass.
pub(crate) fn pool_as<R: Abort + AllocGlobal>(rt: &R, shape: Shape) -> (Pool, Pass)
    requires { IsValid shape }
    ensures { CanShare result.0 result.1 }
{
    Pool::make(rt.alloc(), shape).expect(rt, "words")
}

/// A pool of two passes and eight slots. Each arena has up to eight words, in four pages of two.
fn made<R: Abort + AllocGlobal>(rt: &R) -> (Pool, Pass)
    ensures { CanShare result.0 result.1 }
{
    let shape = Shape {
        passes: 2,
        slots: 8,
        pages: 32,
        page_words: 2,
        reach: 4,
        generations: 1,
    };
    pool_as(rt, shape)
}

/// Both passes of the pool, the second drawn by the first.
pub(crate) fn both<'a, R: Abort + Wait>(
    rt: &R,
    pool: &'a Pool,
    pass: Pass,
) -> (Shared<'a>, Shared<'a>)
    requires { CanShare pool.now pass }
    ensures outside { result.0.inside ≡ None }
    ensures beside { AreBeside result.0 result.1 }
{
    let mut first = pass;
    let second = pool.draw(rt, &mut first).expect(rt, "a pass");
    (Shared::new(pool, first), Shared::new(pool, second))
}

/// A pass that was asked, and has every number, is by itself.
#[test]
fn over_a_pool(rt: HostRuntime) {
    let (pool, mut pass) = made(&rt);
    if pool.whole(&mut pass) {
        let mut m = Shared::new(&pool, pass);
        use_by_itself(&rt, &mut m);
        use_alone(&rt, &mut m, rt.alloc());
    } else {
        assert!(rt; false);
    }
}

#[test]
fn over_a_pool_while_another_pass_closes(rt: HostRuntime) {
    let (pool, pass) = made(&rt);
    let (ours, theirs) = both(&rt, &pool, pass);
    let mut m = Interrupted::new(&rt, ours, theirs, 5);
    copy_until_closed(&rt, &mut m);
}

/// 16 bytes of an arena that is confined to the other pass, open or closed, of which this one hears.
fn theirs<'a, R: Abort + Wait>(
    rt: &R,
    m: &mut Shared<'a>,
    other: Shared<'a>,
    is_closed: bool,
) -> Segment
    requires outside { m.old.inside ≡ None }
    requires beside { AreBeside m.old other }
    ensures outside { m.new.inside ≡ None }
    ensures known { IsKnown (view_of_pass m.new) result }
{
    let mut other = other;
    let arena = other.open_arena(rt, Kind::Confined).expect(rt, "an arena");
    let first = other.allocate(rt, arena, 16, 8).expect(rt, "bytes");
    if is_closed {
        other.close(rt, arena).expect(rt, "an arena that is open");
    }
    m.meet(other.note());
    Segment::of(arena, first, 16)
}

/// What every memory does with 16 bytes of another caller's arena, and with arenas of its own beside it.
fn use_beside_another<R: Abort + Wait, M: Memory>(rt: &R, m: &mut M, alloc: Global, s: &Segment)
    requires { CanUse (M.view m.old) s.now }
{
    use_of_another(rt, m, s);
    use_values_of_another(rt, m, alloc, s);
    stay_out(rt, m, s.arena());
    use_a_word(rt, m, 0);
    use_ranges(rt, m);
}

/// An arena of another pass, open or closed, beside those of this one.
fn beside_an_arena<R: Abort + AllocGlobal + Wait>(rt: &R, is_closed: bool) {
    let (pool, pass) = made(rt);
    let (mut m, other) = both(rt, &pool, pass);
    let s = theirs(rt, &mut m, other, is_closed);
    use_beside_another(rt, &mut m, rt.alloc(), &s);
}

#[test]
fn over_a_pool_beside_an_arena_of_another_pass(rt: HostRuntime) {
    beside_an_arena(&rt, false);
    beside_an_arena(&rt, true);
}
