//! A thread that visits an arena while another closes it, and opens the next one in its slot and page.
ghost use Rattle.std.specs.Prelude.{◌≡◌, None};
ghost use Rattle.fm_rule_calls.specs.Told.{view_of_pass};
ghost use Rattle.fm_segment.specs.Learnt.{CanUse};
ghost use Rattle.fm_visit.specs.Learnt.{IsIn};
ghost use Rattle.fm_arena.specs.Lasting.{SamePool};
ghost use Rattle.fm_memory_doubles.specs.Beside.{AreBeside};

use crate::tests::calls::same;
use crate::tests::pools::{WORDS, both, filled, one_slot, pattern, tell};
use fm_arena::{Shared, keeps_its_pool};
use fm_base::{Kind, Memory};
use fm_segment::Segment;
use fm_visit::Visit;
use std::alloc::AllocGlobal;
use std::process::Abort;
use std::sync::Wait;
use std::sync::atomic::{AtomicBool, Ordering};
use std::thread::{Threads, join_mut};

/// How many words are read in a visit.
const READS: u64 = 1_000;

/// How often the other thread closes the arena, and opens and fills the next one, before it hears of the last.
const ARENAS: u32 = 50;

/// How often the closer looks whether a visit was made, before it goes on without one.
const TURNS: u32 = 10_000_000;

/// What two threads tell each other.
#[derive(Drop)]
struct Signs {
    /// That a visit was made.
    came: AtomicBool,
    /// That the arenas are opened.
    done: AtomicBool,
}

/// How many visits came in, how many didn't, and how many of the words that were read weren't the arena's own.
#[derive(Clone, Copy, Debug, PartialEq, Eq)]
struct Count {
    visits: u64,
    refused: u64,
    wrong: u64,
}

/// Whether a word isn't the arena's own.
fn is_wrong(m: &mut Shared, visit: &Visit, s: &Segment, word: u64) -> bool
    requires { IsIn (view_of_pass m.old) visit.now.arena s.now }
    ensures inside { IsIn (view_of_pass m.new) visit.now.arena s.now }
    ensures same { SamePool m.old m.new }
{
    keeps_its_pool();
    visit.get_word(m, s, 8 * (word % WORDS)) != Ok(pattern(s))
}

/// How many of the words that are read aren't the arena's own.
fn wrong_words(m: &mut Shared, visit: &Visit, s: &Segment) -> u64
    requires { IsIn (view_of_pass m.old) visit.now.arena s.now }
    ensures inside { IsIn (view_of_pass m.new) visit.now.arena s.now }
    ensures same { SamePool m.old m.new }
{
    let mut wrong: u64 = 0;
    for word in 0..READS {
        if is_wrong(m, visit, s, word) {
            wrong = wrong.wrapping_add(1);
        }
    }
    wrong
}

/// The same of one visit; none where nobody comes in.
fn read_once(m: &mut Shared, s: &Segment) -> Option<u64>
    requires { CanUse (view_of_pass m.old) s.now }
    ensures usable { CanUse (view_of_pass m.new) s.now }
    ensures same { SamePool m.old m.new }
{
    keeps_its_pool();
    let visit = Visit::enter(m, s.arena()).ok()?;
    let wrong = wrong_words(m, &visit, s);
    visit.leave(m);
    Some(wrong)
}

/// Visits the arena, also once it is closed, until the other thread is done.
fn read_on<R: Wait>(rt: &R, m: &mut Shared, s: &Segment, signs: &Signs) -> Count
    requires { CanUse (view_of_pass m.old) s.now }
    ensures outside { m.new.inside ≡ None }
    ensures same { SamePool m.old m.new }
{
    let mut count = Count {
        visits: 0,
        refused: 0,
        wrong: 0,
    };
    for _ in rt.forever() {
        if signs.done.load(Ordering::SeqCst) {
            return count;
        }
        match read_once(m, s) {
            Some(wrong) => {
                count.visits = count.visits.wrapping_add(1);
                count.wrong = count.wrong.wrapping_add(wrong);
            }
            None => count.refused = count.refused.wrapping_add(1),
        }
        signs.came.store(true, Ordering::SeqCst);
    }
    unreachable!()
}

/// Waits for a visit.
fn wait_for(came: &AtomicBool) {
    for _ in 0..TURNS {
        if came.load(Ordering::SeqCst) {
            return;
        }
    }
}

/// Closes the arena, and opens and fills the next one.
fn renewed<R: Abort + Wait>(rt: &R, m: &mut Shared, s: &Segment) -> Segment
    requires { CanUse (view_of_pass m.old) s.now }
    ensures known { CanUse (view_of_pass m.new) result }
    ensures same { SamePool m.old m.new }
{
    keeps_its_pool();
    same(rt, m.close(rt, s.arena()), Ok(()));
    filled(rt, m, Kind::Shared)
}

/// The same so often, once there was a visit.
fn renew<R: Abort + Wait>(rt: &R, m: &mut Shared, s: &Segment, signs: &Signs) -> Segment
    requires { CanUse (view_of_pass m.old) s.now }
    ensures usable { CanUse (view_of_pass m.new) result }
    ensures same { SamePool m.old m.new }
{
    wait_for(&signs.came);
    let mut last = *s;
    for _ in 0..ARENAS {
        last = renewed(rt, m, &last);
    }
    signs.done.store(true, Ordering::SeqCst);
    last
}

/// One thread visits the arena, which the other closes, and opens and fills others in its place.
fn read_and_renew<R: Abort + Threads + Wait + Sync>(
    rt: &R,
    ours: &mut Shared,
    theirs: &mut Shared,
    s: &Segment,
) -> (Count, Segment)
    requires usable { CanUse (view_of_pass ours.old) s.now }
    requires beside { AreBeside ours.old theirs.old }
    ensures usable { CanUse (view_of_pass ours.new) result.1 }
    ensures beside { AreBeside ours.new theirs.new }
{
    tell(ours, theirs, s);
    let signs = Signs {
        came: AtomicBool::new(false),
        done: AtomicBool::new(false),
    };
    join_mut(
        rt,
        &mut || read_on(rt, theirs, s, &signs),
        &mut || renew(rt, ours, s, &signs),
    )
}

/// What comes of so many rounds, each with 50 arenas in the slot and the page of the one before.
fn counted<R: Abort + AllocGlobal + Threads + Wait + Sync>(rt: &R, rounds: u32) -> Count {
    let (pool, pass) = one_slot(rt);
    let (mut ours, mut theirs) = both(rt, &pool, pass);
    let mut s = filled(rt, &mut ours, Kind::Shared);
    let mut all = Count {
        visits: 0,
        refused: 0,
        wrong: 0,
    };
    for _ in 0..rounds {
        let (count, last) = read_and_renew(rt, &mut ours, &mut theirs, &s);
        s = last;
        all.visits = all.visits.wrapping_add(count.visits);
        all.refused = all.refused.wrapping_add(count.refused);
        all.wrong = all.wrong.wrapping_add(count.wrong);
    }
    all
}

/// Of 10,000 arenas that are opened, filled and closed.
#[test]
fn no_visit_reads_another_generation(rt: HostRuntime) {
    let count = counted(&rt, 200);
    same(&rt, count.wrong, 0);
    same(&rt, count.visits > 0 && count.refused > 0, true);
}
