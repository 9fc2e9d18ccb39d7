//! Arenas that are closed beside other work: the loop asks once a turn which of them have ended, and goes on.
ghost use Rattle.std.specs.Prelude.{◌≡◌, IfOk, IfSome};
ghost use Rattle.fm_rule_facts.specs.Views.{IsKnown};
ghost use Rattle.fm_rule_calls.specs.Kept.{Lasts};
ghost use Rattle.fm_gate.specs.Needs.{CanLeave, IsOutside};
ghost use Rattle.fm_async.specs.Sets.{CanBegin, closes_of, unfinished};

use fm_async::SetCloser;
use fm_base::{ArenaId, Kind, Refusal};
use fm_gate::{a_crew_stands, enter, leave, open_arena};
use fm_rule::{Pass, Pool};
use fm_words::Shape;
use std::alloc::Global;
use std::sync::Wait;

/// A slot and a page for each of two arenas, and a pass for the loop and one for a reader.
const SHAPE: Shape = Shape {
    passes: 2,
    slots: 2,
    pages: 2,
    page_words: 8,
    reach: 1,
    generations: 1,
};

/// Closes two arenas while a reader is inside one of them, and answers how many jobs were done meanwhile.
pub fn close_beside_work<R: Wait>(rt: &R, alloc: Global) -> Result<u32, Refusal> {
    let (pool, mut theirs) = Pool::make(alloc, SHAPE)?;
    let first = open_arena(rt, &pool, &mut theirs, Kind::Shared)?;
    let second = open_arena(rt, &pool, &mut theirs, Kind::Shared)?;
    let ours = drawn(rt, &pool, &mut theirs)?;
    enter(&pool, &mut theirs, second)?;
    close_both(rt, alloc, &pool, ours, theirs, (first, second))
}

/// A pass for the loop: it has nothing, and knows what its giver knows.
fn drawn<R: Wait>(rt: &R, pool: &Pool, giver: &mut Pass) -> Result<Pass, Refusal>
    requires { IsOutside pool.now giver.old }
    ensures ours { IfOk result (λ ours. CanBegin pool.now ours × Lasts giver.old ours) }
    ensures giver { IfOk result (λ ours. IsOutside pool.now giver.new × Lasts giver.old giver.new) }
{
    a_crew_stands();
    pool.draw(rt, giver)
}

/// Closes the arenas of a pass while another one is inside one of them.
fn close_both<R: Wait>(
    rt: &R,
    alloc: Global,
    pool: &Pool,
    ours: Pass,
    theirs: Pass,
    arenas: (ArenaId, ArenaId),
) -> Result<u32, Refusal>
    requires begin { CanBegin pool.now ours }
    requires first { IsKnown ours arenas.0 }
    requires second { IsKnown ours arenas.1 }
    requires reader { CanLeave pool.now theirs }
{
    let Ok(mut set) = SetCloser::empty(alloc, pool, ours, 2) else {
        return Err(Refusal::Memory);
    };
    let first = set.add(arenas.0);
    let second = set.add(arenas.1);
    let mut reader = Some(theirs);
    let jobs = work(rt, pool, &mut set, &mut reader);
    set.sweep();
    set.into_pass();
    first.and(second).map(|()| jobs)
}

/// Does the loop's own jobs, and asks once a turn which arenas have ended, until all have.
fn work<R: Wait>(rt: &R, pool: &Pool, set: &mut SetCloser<'_>, reader: &mut Option<Pass>) -> u32
    requires reader { IfSome reader.old (λ pass. CanLeave pool.now pass) }
    ensures ended { unfinished (closes_of set.new.closes) ≡ 0 }
{
    let mut jobs: u32 = 0;
    for _ in rt.forever() {
        set.advance();
        if set.unfinished() == 0 {
            return jobs;
        }
        jobs = jobs.wrapping_add(1);
        if jobs == 3 {
            let_out(pool, reader);
        }
    }
    unreachable!()
}

/// Lets the reader out of its arena, if it is still there.
fn let_out(pool: &Pool, reader: &mut Option<Pass>)
    requires { IfSome reader.old (λ pass. CanLeave pool.now pass) }
    ensures { IfSome reader.new (λ pass. CanLeave pool.now pass) }
{
    if let Some(mut pass) = reader.take() {
        leave(pool, &mut pass);
    }
}
