//! Two passes of a pool.
ghost use Rattle.std.specs.Prelude.{◌≡◌, ◌≢◌, None};
ghost use Rattle.fm_rule.specs.Passes.{IsOf};
ghost use Rattle.fm_rule_calls.specs.Told.{view_of_pass};
ghost use Rattle.fm_segment.specs.Access.{IsKnown};
ghost use Rattle.fm_arena.specs.Lasting.{SamePool};
ghost use Rattle.fm_arena.specs.Shares.{CanShare};
ghost use Rattle.fm_memory_doubles.specs.Beside.{AreBeside};

use crate::tests::calls::same;
use crate::tests::memories::stays_out;
use fm_arena::{Shared, keeps_its_pool};
use fm_base::{Kind, Memory, Refusal};
use fm_gate::a_crew_stands;
use fm_rule::{Pass, Pool};
use fm_segment::Segment;
use fm_visit::Visit;
use fm_words::Shape;
use std::alloc::AllocGlobal;
use std::process::Abort;
use std::sync::Wait;

/// The words of an arena.
pub(crate) const WORDS: u64 = 8;

/// A pool of two passes and one slot, which is lent 16,000 times, with one page of eight words.
pub(crate) fn one_slot<R: Abort + AllocGlobal>(rt: &R) -> (Pool, Pass)
    ensures { CanShare result.0 result.1 }
{
    let shape = Shape {
        passes: 2,
        slots: 1,
        pages: 1,
        page_words: 8,
        reach: 1,
        generations: 16_000,
    };
    Pool::make(rt.alloc(), shape).expect(rt, "words")
}

/// Both passes of the pool, the second drawn by the first.
pub(crate) fn both<'a, R: Abort + Wait>(
    rt: &R,
    pool: &'a Pool,
    pass: Pass,
) -> (Shared<'a>, Shared<'a>)
    requires { CanShare pool.now pass }
    ensures outside { result.0.inside ≡ None }
    ensures of { IsOf pool.now result.0 }
    ensures beside { AreBeside result.0 result.1 }
{
    a_crew_stands();
    let mut first = pass;
    let second = pool.draw(rt, &mut first).expect(rt, "a pass");
    (Shared::new(pool, first), Shared::new(pool, second))
}

/// The word that an arena's opener puts everywhere: no other's, and not 0.
pub(crate) fn pattern(s: &Segment) -> u64 {
    u64::from(s.arena().generation) + 1
}

/// All bytes of a new arena of this kind, with its pattern in each word.
pub(crate) fn filled<R: Abort + Wait>(rt: &R, m: &mut Shared, kind: Kind) -> Segment
    requires outside { m.old.inside ≡ None }
    requires by_hand { kind ≢ Kind.Automatic }
    ensures outside { m.new.inside ≡ None }
    ensures known { IsKnown (view_of_pass m.new) result }
    ensures same { SamePool m.old m.new }
{
    keeps_its_pool();
    let arena = m.open_arena(rt, kind).expect(rt, "a slot");
    same(rt, m.allocate(rt, arena, 8 * WORDS, 8), Ok(0));
    let s = Segment::of(arena, 0, 8 * WORDS);
    let visit = Visit::enter(m, arena).expect(rt, "alive");
    let put = visit.put_words(m, &s, 0, &[pattern(&s); 8]);
    visit.leave(m);
    same(rt, put, Ok(()));
    s
}

/// Another pass of the pool meets what this one has seen, and so knows the segment.
pub(crate) fn tell(ours: &mut Shared, theirs: &mut Shared, s: &Segment)
    requires same { SamePool ours.old theirs.old }
    requires outside { theirs.old.inside ≡ None }
    requires known { IsKnown (view_of_pass ours.old) s.now }
    ensures ours { ours.new ≡ ours.old }
    ensures same { SamePool theirs.old theirs.new }
    ensures outside { theirs.new.inside ≡ None }
    ensures known { IsKnown (view_of_pass theirs.new) s.now }
{
    theirs.meet(ours.note());
}

#[test]
fn another_pass_is_kept_out(rt: HostRuntime) {
    let (pool, pass) = one_slot(&rt);
    let (mut ours, mut theirs) = both(&rt, &pool, pass);
    let s = filled(&rt, &mut ours, Kind::Confined);
    tell(&mut ours, &mut theirs, &s);
    stays_out(&rt, &mut theirs, s.arena(), Refusal::WrongThread);
}
