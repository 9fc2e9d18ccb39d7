ghost use Rattle.std.specs.Prelude.{◌≡◌, ◌≤◌, None};
ghost use Rattle.fm_base.specs.Learnt.{CanVisit};
ghost use Rattle.fm_segment.specs.Learnt.{CanUse, CanUseBoth};
ghost use Rattle.fm_visit.specs.Learnt.{IsIn};
ghost use Rattle.fm_arena.specs.Shares.{CanShare};

use crate::tests::calls::{fresh, refuse, refuse_another, refuse_read_only, same, use_words};
use crate::tests::handles::{refuse_longs_of_another, use_longs, use_others};
use crate::tests::runs::use_runs;
use crate::tests::values::{refuse_values, refuse_values_of_another, use_values};
use fm_arena::Shared;
use fm_base::{ArenaId, Memory, Refusal};
use fm_memory_doubles::{Double, Interrupted, Others};
use fm_mono::Mono;
use fm_rule::{Pass, Pool};
use fm_segment::Segment;
use fm_visit::Visit;
use fm_words::Shape;
use std::alloc::{AllocGlobal, Global};
use std::process::Abort;
use std::sync::Wait;

/// One visit with all its calls.
fn visit_one<R: Abort + Wait, M: Memory>(rt: &R, m: &mut M, alloc: Global, s: &Segment, step: u8)
    requires known { CanUse (M.view m.old) s.now }
    requires small { step ≤ 1 }
    ensures { CanUse (M.view m.new) s.now }
{
    let visit = Visit::enter(m, s.arena()).expect(rt, "alive");
    use_longs(rt, m, alloc, &visit, s, step);
    if step == 0 {
        use_others(rt, m, alloc, &visit, s);
    }
    clear(rt, m, &visit, s);
    use_words(rt, m, &visit, s, u64::from(step));
    refuse(rt, m, &visit, s);
    refuse_read_only(rt, m, &visit, &s.as_read_only());
    clear(rt, m, &visit, s);
    use_values(rt, m, &visit, s, step);
    refuse_values(rt, m, &visit, s);
    visit.leave(m);
}

/// Fills the segment with zeros.
fn clear<R: Abort + Wait, M: Memory>(rt: &R, m: &mut M, visit: &Visit, s: &Segment)
    requires { IsIn (M.view m.old) visit.now.arena s.now }
    ensures { IsIn (M.view m.new) visit.now.arena s.now }
{
    same(rt, visit.fill(rt, m, s, 0), Ok(()));
}

/// One visit, with a segment of another arena.
fn visit_another<R: Abort + Wait, M: Memory>(
    rt: &R,
    m: &mut M,
    alloc: Global,
    s: &Segment,
    other: &Segment,
)
    requires { CanUseBoth (M.view m.old) s.now other.now }
    ensures { (M.view m.new).inside ≡ None }
{
    let visit = Visit::enter(m, s.arena()).expect(rt, "alive");
    refuse_values_of_another(rt, m, &visit, s, other);
    refuse_another(rt, m, &visit, other);
    refuse_longs_of_another(rt, m, alloc, &visit, other);
    visit.leave(m);
}

/// What every memory does, of whose words others add `step` before each act on one.
fn use_visits<R: Abort + Wait, M: Memory>(rt: &R, m: &mut M, alloc: Global, step: u8)
    requires outside { (M.view m.old).inside ≡ None }
    requires small { step ≤ 1 }
{
    let closed = fresh(rt, m);
    visit_one(rt, m, alloc, &closed, step);
    same(rt, m.close(rt, closed.arena()), Ok(()));
    stays_out(rt, m, closed.arena(), Refusal::Closed);
    let s = fresh(rt, m);
    let other = fresh(rt, m);
    visit_another(rt, m, alloc, &s, &other);
}

/// What every memory does whose words others leave alone.
fn use_alone<R: Abort + Wait, M: Memory>(rt: &R, m: &mut M, alloc: Global)
    requires { (M.view m.old).inside ≡ None }
{
    use_runs(rt, m);
    use_visits(rt, m, alloc, 0);
}

/// Stops where the caller isn't refused so.
pub(crate) fn stays_out<R: Abort, M: Memory>(rt: &R, m: &mut M, id: ArenaId, refusal: Refusal)
    requires { CanVisit (M.view m.old) id }
    ensures { CanVisit (M.view m.new) id }
{
    let found = match Visit::enter(m, id) {
        Ok(visit) => {
            visit.leave(m);
            None
        }
        Err(found) => Some(found),
    };
    same(rt, found, Some(refusal));
}

#[test]
fn one_thread(rt: HostRuntime) {
    let mut m = Mono::make(rt.alloc(), 704);
    use_alone(&rt, &mut m, rt.alloc());
}

#[test]
fn where_the_others_are_gathered(rt: HostRuntime) {
    let mono = Mono::make(rt.alloc(), 704);
    let mut m = Double::new(&rt, rt.alloc(), mono, Others::Gathered);
    use_alone(&rt, &mut m, rt.alloc());
}

#[test]
fn beside_another_caller(rt: HostRuntime) {
    let others = Others::Add {
        script: u64::MAX,
        step: 1,
    };
    let mut m = Double::new(&rt, rt.alloc(), Mono::make(rt.alloc(), 64), others);
    use_visits(&rt, &mut m, rt.alloc(), 1);
}

/// A pool of two passes for four arenas. Each has up to 88 words, in eleven pages of eight.
pub(crate) fn made<R: Abort + AllocGlobal>(rt: &R) -> (Pool, Pass)
    ensures { CanShare result.0 result.1 }
{
    let shape = Shape {
        passes: 2,
        slots: 4,
        pages: 14,
        page_words: 8,
        reach: 11,
        generations: 1,
    };
    Pool::make(rt.alloc(), shape).expect(rt, "words")
}

#[test]
fn over_a_pool(rt: HostRuntime) {
    let (pool, pass) = made(&rt);
    let mut m = Shared::new(&pool, pass);
    use_alone(&rt, &mut m, rt.alloc());
}

/// Another closes the arena just before the second visit, and once the first one is over: that one goes through.
fn use_until_closed<R: Abort + Wait, M: Memory>(rt: &R, m: &mut M, alloc: Global)
    requires { (M.view m.old).inside ≡ None }
{
    let s = fresh(rt, m);
    visit_one(rt, m, alloc, &s, 0);
    stays_out(rt, m, s.arena(), Refusal::Closed);
}

#[test]
fn while_another_caller_closes(rt: HostRuntime) {
    let mono = Mono::make(rt.alloc(), 64);
    let mut m = Double::new(&rt, rt.alloc(), mono, Others::Close { left: 2 });
    use_until_closed(&rt, &mut m, rt.alloc());
}

#[test]
fn while_another_pass_closes(rt: HostRuntime) {
    let (pool, mut pass) = made(&rt);
    let theirs = pool.draw(&rt, &mut pass).expect(&rt, "a pass");
    let theirs = Shared::new(&pool, theirs);
    let mut m = Interrupted::new(&rt, Shared::new(&pool, pass), theirs, 2);
    use_until_closed(&rt, &mut m, rt.alloc());
}
