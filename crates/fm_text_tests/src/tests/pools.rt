ghost use Rattle.std.specs.Prelude.{◌≡◌, ◌≢◌, None};
ghost use Rattle.fm_rule_calls.specs.Told.{view_of_pass};
ghost use Rattle.fm_segment.specs.Access.{IsKnown};
ghost use Rattle.fm_arena.specs.Lasting.{SamePool};
ghost use Rattle.fm_arena.specs.Shares.{CanShare};
ghost use Rattle.fm_memory_doubles.specs.Beside.{AreBeside};

use crate::tests::calls::{gets, same, sets};
use fm_arena::{Arena, Shared, keeps_its_pool};
use fm_base::{Kind, Refusal};
use fm_rule::{Pass, Pool};
use fm_segment::Segment;
use fm_text::allocate_text;
use fm_words::Shape;
use std::alloc::AllocGlobal;
use std::process::Abort;
use std::sync::Wait;

/// Two passes, and two slots, for arenas of eight words in a page each.
pub(crate) fn made<R: Abort + AllocGlobal>(rt: &R) -> (Pool, Pass)
    ensures { CanShare result.0 result.1 }
{
    let shape = Shape {
        passes: 2,
        slots: 2,
        pages: 2,
        page_words: 8,
        reach: 1,
        generations: 1,
    };
    Pool::make(rt.alloc(), shape).expect(rt, "words")
}

/// Both passes of the pool, the second drawn by the first.
pub(crate) fn both<'a, R: Abort + Wait>(
    rt: &R,
    pool: &'a Pool,
    pass: Pass,
) -> (Shared<'a>, Shared<'a>)
    requires { CanShare pool.now pass }
    ensures outside { result.0.inside ≡ None }
    ensures beside { AreBeside result.0 result.1 }
{
    let mut first = pass;
    let second = pool.draw(rt, &mut first).expect(rt, "a pass");
    (Shared::new(pool, first), Shared::new(pool, second))
}

/// An arena of this kind, and 24 bytes of it.
pub(crate) fn started<R: Abort + Wait>(rt: &R, m: &mut Shared, kind: Kind) -> (Arena, Segment)
    requires outside { m.old.inside ≡ None }
    requires by_hand { kind ≢ Kind.Automatic }
    ensures outside { m.new.inside ≡ None }
    ensures known { IsKnown (view_of_pass m.new) result.1 }
    ensures arena { result.1.arena ≡ result.0.id }
    ensures same { SamePool m.old m.new }
{
    keeps_its_pool();
    let arena = Arena::start(rt, m, kind).expect(rt, "a slot");
    let s = arena.allocate(rt, m, 24, 8).expect(rt, "bytes");
    (arena, s)
}

/// Another pass of the pool meets what this one has seen, and so knows the segment.
pub(crate) fn tell(ours: &mut Shared, theirs: &mut Shared, s: &Segment)
    requires same { SamePool ours.old theirs.old }
    requires outside { theirs.old.inside ≡ None }
    requires known { IsKnown (view_of_pass ours.old) s.now }
    ensures ours { ours.new ≡ ours.old }
    ensures outside { theirs.new.inside ≡ None }
    ensures known { IsKnown (view_of_pass theirs.new) s.now }
{
    theirs.meet(ours.note());
}

/// A confined arena is used by its own pass alone; what the arguments refuse is refused first.
#[test]
fn another_pass_is_kept_out(rt: HostRuntime) {
    let (pool, pass) = made(&rt);
    let (mut ours, mut theirs) = both(&rt, &pool, pass);
    let (arena, s) = started(&rt, &mut ours, Kind::Confined);
    tell(&mut ours, &mut theirs, &s);
    let kept = s.as_read_only();
    sets(&rt, &mut theirs, &s, 0, "hi", Err(Refusal::WrongThread));
    sets(&rt, &mut theirs, &s, 22, "hi", Err(Refusal::Bounds));
    sets(&rt, &mut theirs, &kept, 0, "hi", Err(Refusal::ReadOnly));
    gets(
        &rt,
        &mut theirs,
        rt.alloc(),
        &s,
        23,
        Err(Refusal::WrongThread),
    );
    gets(&rt, &mut theirs, rt.alloc(), &s, 24, Err(Refusal::NoZero));
    gets(&rt, &mut theirs, rt.alloc(), &s, 25, Err(Refusal::Bounds));
    let none = allocate_text(&rt, &mut theirs, &arena, "hi");
    same(&rt, none, Err(Refusal::WrongThread));
    sets(&rt, &mut ours, &s, 0, "hi", Ok(()));
    gets(&rt, &mut ours, rt.alloc(), &s, 0, Ok("hi"));
}
