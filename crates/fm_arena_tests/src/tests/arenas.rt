ghost use Rattle.std.specs.Prelude.{◌≡◌, ◌≢◌, None};
ghost use Rattle.fm_base.specs.Learnt.{AfterClose, CanVisit};
ghost use Rattle.fm_rule_calls.specs.Kept.{Lasts};
ghost use Rattle.fm_rule_calls.specs.Told.{view_of_pass};
ghost use Rattle.fm_segment.specs.Access.{IsKnown};
ghost use Rattle.fm_arena.specs.Handles.{CanGiveBack};
ghost use Rattle.fm_arena.specs.Lasting.{SamePool};

use crate::tests::compared::same;
use crate::tests::pools::{both, pool_as};
use crate::tests::segment_calls::{Call, calls};
use crate::tests::segments::LOW;
use fm_arena::{Arena, AutoHandle, Shared, a_handle_lasts, a_hold_lasts, keeps_its_pool};
use fm_base::{Kind, Memory, Refusal};
use fm_close::GaveBack;
use fm_lanes::{Value, ValueKind};
use fm_layout::Layout;
use fm_segment::Segment;
use fm_words::Shape;
use std::alloc::AllocGlobal;
use std::process::Abort;
use std::random::RandomSource;
use std::sync::Wait;
use std::thread::{Threads, join_mut};

/// Two passes, and two slots of one page of eight words, for one arena each.
const TWO_SLOTS: Shape = Shape {
    passes: 2,
    slots: 2,
    pages: 2,
    page_words: 8,
    reach: 1,
    generations: 1,
};

/// The long of a segment.
fn long_of(m: &mut Shared, s: &Segment) -> Result<Value, Refusal>
    requires outside { m.old.inside ≡ None }
    requires known { IsKnown (view_of_pass m.old) s.now }
    ensures outside { m.new.inside ≡ None }
    ensures known { IsKnown (view_of_pass m.new) s.now }
{
    s.get(m, &Layout::value(ValueKind::Long), 0)
}

/// Another pass of the pool meets what this one has seen, and so knows the segment.
fn tell(ours: &mut Shared, theirs: &mut Shared, s: &Segment)
    requires same { SamePool ours.old theirs.old }
    requires outside { theirs.old.inside ≡ None }
    requires known { IsKnown (view_of_pass ours.old) s.now }
    ensures ours { ours.new ≡ ours.old }
    ensures outside { theirs.new.inside ≡ None }
    ensures known { IsKnown (view_of_pass theirs.new) s.now }
{
    theirs.meet(ours.note());
}

/// An arena that is closed by hand, and eight bytes of it.
fn started<R: Abort + Wait>(rt: &R, m: &mut Shared, kind: Kind) -> (Arena, Segment)
    requires outside { m.old.inside ≡ None }
    requires by_hand { kind ≢ Kind.Automatic }
    ensures outside { m.new.inside ≡ None }
    ensures known { IsKnown (view_of_pass m.new) result.1 }
    ensures arena { result.1.arena ≡ result.0.id }
    ensures same { SamePool m.old m.new }
{
    keeps_its_pool();
    let arena = Arena::start(rt, m, kind).expect(rt, "a slot");
    let s = arena.allocate(rt, m, 8, 8).expect(rt, "bytes");
    (arena, s)
}

/// What another pass is answered of a confined arena, whether it is closed or not.
fn is_kept_out<R: Abort + Wait>(rt: &R, theirs: &mut Shared, arena: &Arena, s: &Segment)
    requires outside { theirs.old.inside ≡ None }
    requires known { IsKnown (view_of_pass theirs.old) s.now }
    requires arena { s.now.arena ≡ arena.now.id }
    ensures outside { theirs.new.inside ≡ None }
    ensures known { IsKnown (view_of_pass theirs.new) s.now }
{
    same(rt, long_of(theirs, s), Err(Refusal::WrongThread));
    same(rt, theirs.is_alive(arena.id()), Err(Refusal::WrongThread));
    same(rt, arena.close(rt, theirs), Err(Refusal::WrongThread));
}

#[test]
fn a_confined_arena_is_used_by_its_own_pass_alone(rt: HostRuntime) {
    let (pool, pass) = pool_as(&rt, TWO_SLOTS);
    let (mut ours, mut theirs) = both(&rt, &pool, pass);
    let (arena, s) = started(&rt, &mut ours, Kind::Confined);
    tell(&mut ours, &mut theirs, &s);
    is_kept_out(&rt, &mut theirs, &arena, &s);
    same(&rt, long_of(&mut ours, &s), Ok(Value::Long(0)));
    same(&rt, arena.close(&rt, &mut ours), Ok(()));
    is_kept_out(&rt, &mut theirs, &arena, &s);
}

/// An automatic arena, and so many bytes of it.
pub(super) fn automatic<R: Abort + Wait>(rt: &R, m: &mut Shared, size: u64) -> (AutoHandle, Segment)
    requires { m.old.inside ≡ None }
    ensures handle { CanGiveBack m.new result.0 }
    ensures known { IsKnown (view_of_pass m.new) result.1 }
{
    let handle = AutoHandle::start(rt, m).expect(rt, "a slot");
    a_handle_lasts();
    let first = m.allocate(rt, handle.arena(), size, 8).expect(rt, "bytes");
    let s = Segment::of(handle.arena(), first, size);
    (handle, s)
}

/// Another handle, once the first is given back.
#[tactic(auto, using(crate::proofs::Handling::other_left))]
fn renewed<R: Abort + Wait>(rt: &R, m: &mut Shared, handle: AutoHandle) -> (AutoHandle, GaveBack)
    requires { CanGiveBack m.old handle }
    ensures handle { CanGiveBack m.new result.0 }
    ensures lasts { Lasts m.old m.new }
{
    let other = handle.again(rt, m).expect(rt, "a hold");
    a_handle_lasts();
    let gave = handle.give_back(rt, m);
    (other, gave)
}

/// The long of a segment, with a handle of an arena that stays.
fn long_beside(m: &mut Shared, s: &Segment, handle: &AutoHandle) -> Result<Value, Refusal>
    requires handle { CanGiveBack m.old handle.now }
    requires known { IsKnown (view_of_pass m.old) s.now }
    ensures handle { CanGiveBack m.new handle.now }
    ensures known { IsKnown (view_of_pass m.new) s.now }
{
    a_handle_lasts();
    s.get(m, &Layout::value(ValueKind::Long), 0)
}

#[test]
fn an_automatic_arena_ends_with_its_last_handle(rt: HostRuntime) {
    let (pool, pass) = pool_as(&rt, TWO_SLOTS);
    let mut m = Shared::new(&pool, pass);
    let (handle, s) = automatic(&rt, &mut m, 8);
    let (last, gave) = renewed(&rt, &mut m, handle);
    same(&rt, gave, GaveBack::Kept);
    same(&rt, long_beside(&mut m, &s, &last), Ok(Value::Long(0)));
    same(&rt, last.give_back(&rt, &mut m), GaveBack::Ended);
    same(&rt, long_of(&mut m, &s), Err(Refusal::Closed));
}

/// One pass reads the long while the other closes the arena, each in a thread of its own.
fn read_and_close<R: Threads + Wait + Sync>(
    rt: &R,
    ours: &mut Shared,
    theirs: &mut Shared,
    arena: &Arena,
    s: &Segment,
) -> (Result<Value, Refusal>, Result<(), Refusal>)
    requires ours { IsKnown (view_of_pass ours.old) s.now }
    requires outside { ours.old.inside ≡ None }
    requires arena { s.now.arena ≡ arena.now.id }
    requires theirs { IsKnown (view_of_pass theirs.old) s.now }
    requires there { theirs.old.inside ≡ None }
    ensures theirs { IsKnown (view_of_pass theirs.new) s.now }
    ensures there { theirs.new.inside ≡ None }
{
    join_mut(
        rt,
        &mut || long_of(theirs, s),
        &mut || arena.close(rt, ours),
    )
}

/// A read beside a close is answered whole or refused, and afterwards refused.
#[test]
fn an_arena_is_closed_while_another_thread_reads(rt: HostRuntime) {
    let (pool, pass) = pool_as(&rt, TWO_SLOTS);
    let (mut ours, mut theirs) = both(&rt, &pool, pass);
    let (arena, s) = started(&rt, &mut ours, Kind::Shared);
    tell(&mut ours, &mut theirs, &s);
    calls(&rt, &mut ours, &s, &[(Call::Set(LOW, 0, 250), Ok(0))]);
    let (read, closed) = read_and_close(&rt, &mut ours, &mut theirs, &arena, &s);
    let whole = read == Ok(Value::Long(250));
    same(&rt, whole || read == Err(Refusal::Closed), true);
    same(&rt, closed, Ok(()));
    same(&rt, long_of(&mut theirs, &s), Err(Refusal::Closed));
}

/// How an arena is closed.
#[derive(Clone, Copy)]
enum CloseBy {
    Visits,
    Polls,
}

/// Closes an arena so.
fn close<R: Abort + Wait + RandomSource + AllocGlobal>(
    rt: &R,
    m: &mut Shared,
    arena: &Arena,
    by: CloseBy,
) -> Result<(), Refusal>
    requires { CanVisit (view_of_pass m.old) arena.now.id }
    ensures { AfterClose (view_of_pass m.old) (view_of_pass m.new) arena.now.id result }
{
    match by {
        CloseBy::Visits => arena.close(rt, m),
        CloseBy::Polls => m.close_by_poll(rt, arena.id()),
    }
}

/// A hold of an arena, which can't be closed meanwhile.
fn close_held<R: Abort + Wait + RandomSource + AllocGlobal>(
    rt: &R,
    m: &mut Shared,
    arena: &Arena,
    by: CloseBy,
) -> Result<(), Refusal>
    requires { CanVisit (view_of_pass m.old) arena.now.id }
    ensures { CanVisit (view_of_pass m.new) arena.now.id }
{
    let hold = m.hold(rt, arena.id()).expect(rt, "a hold");
    a_hold_lasts();
    let answer = close(rt, m, arena, by);
    m.unhold(hold);
    answer
}

/// An arena is closed so: not while it is held, once it isn't, and only once.
fn closed<R: Abort + Wait + RandomSource + AllocGlobal>(rt: &R, by: CloseBy) {
    let (pool, pass) = pool_as(rt, TWO_SLOTS);
    let mut m = Shared::new(&pool, pass);
    let arena = Arena::start(rt, &mut m, Kind::Shared).expect(rt, "a slot");
    same(rt, m.is_alive(arena.id()), Ok(true));
    same(
        rt,
        close_held(rt, &mut m, &arena, by),
        Err(Refusal::Held(1)),
    );
    same(rt, close(rt, &mut m, &arena, by), Ok(()));
    same(rt, m.is_alive(arena.id()), Ok(false));
    same(rt, close(rt, &mut m, &arena, by), Err(Refusal::Closed));
}

#[test]
fn a_held_arena_is_closed_once_the_hold_is_spent(rt: HostRuntime) {
    closed(&rt, CloseBy::Visits);
    closed(&rt, CloseBy::Polls);
}
