//! Closes by polls: of an arena that a reader stays in, and of 64 arenas at once.
ghost use Rattle.std.specs.Prelude.{◌≡◌, ◌+◌, true, [], length, vec_len, All, IfOk};
ghost use Rattle.fm_rule_facts.specs.Views.{IsKnown};
ghost use Rattle.fm_rule_calls.specs.Kept.{Lasts};
ghost use Rattle.fm_gate.specs.Needs.{CanLeave, IsOutside};
ghost use Rattle.fm_async.specs.Sets.{CanBegin, closes_of, unfinished};
ghost use Rattle.fm_bench.specs.Knowing.{Knows};

use crate::pools::{AGAIN, ONE, drawn, made};
use fm_async::{Closer, SetCloser, Start};
use fm_base::{ArenaId, Kind, Refusal};
use fm_close::{Visit, close};
use fm_gate::{enter, leave, open_arena};
use fm_rule::{Pass, Pool};
use fm_words::Shape;
use std::alloc::Global;
use std::sync::Wait;

/// How many arenas are closed in a round.
const ARENAS: u32 = 64;

/// 64 slots, each for arenas one after another.
const MANY: Shape = Shape {
    slots: ARENAS,
    ..AGAIN
};

/// How a close is asked for its end.
#[derive(Clone, Copy, Debug)]
pub enum By {
    /// By a poll, which makes visits up to one that finds a mark of the arena.
    Poll,
    /// By one visit.
    Visit,
}

/// Asks so often for the end of an arena that a reader stays in, and adds up who was in the way.
pub fn polls<R: Wait>(rt: &R, alloc: Global, count: u64, by: By) -> Result<u64, Refusal> {
    let (pool, mut theirs) = made(alloc, ONE)?;
    let arena = open_arena(rt, &pool, &mut theirs, Kind::Shared)?;
    let ours = drawn(rt, &pool, &mut theirs)?;
    enter(&pool, &mut theirs, arena)?;
    close_late(rt, &pool, ours, &mut theirs, arena, (count, by))
}

/// The reader leaves after that, and the arena ends.
fn close_late<R: Wait>(
    rt: &R,
    pool: &Pool,
    ours: Pass,
    theirs: &mut Pass,
    arena: ArenaId,
    asked: (u64, By),
) -> Result<u64, Refusal>
    requires begin { CanBegin pool.now ours }
    requires known { IsKnown ours arena }
    requires theirs { CanLeave pool.now theirs.old }
{
    let mut closer = match Closer::start(pool, ours, arena) {
        Start::Begun(closer) => closer,
        Start::Refused(_, refusal) => return Err(refusal),
    };
    let found = match asked.1 {
        By::Poll => poll_often(&mut closer, asked.0),
        By::Visit => visit_often(&mut closer, asked.0),
    };
    leave(pool, theirs);
    end(rt, &mut closer);
    closer.sweep();
    Ok(found)
}

fn poll_often(closer: &mut Closer<'_>, count: u64) -> u64 {
    let mut found: u64 = 0;
    for _ in 0..count {
        if let Some(k) = closer.advance() {
            found = found.wrapping_add(u64::from(k));
        }
    }
    found
}

fn visit_often(closer: &mut Closer<'_>, count: u64) -> u64 {
    let mut found: u64 = 0;
    for _ in 0..count {
        if closer.is_ended() {
            return found;
        }
        if let Visit::Inside(k) = closer.step() {
            found = found.wrapping_add(u64::from(k));
        }
    }
    found
}

/// Polls until the arena has ended.
fn end<R: Wait>(rt: &R, closer: &mut Closer<'_>)
    ensures { closer.new.shutting.ended ≡ true }
{
    for _ in rt.forever() {
        closer.advance();
        if closer.is_ended() {
            return;
        }
    }
    unreachable!()
}

/// Opens 64 arenas and closes them by one set, so many rounds, and answers how many were closed.
pub fn sets<R: Wait>(rt: &R, alloc: Global, rounds: u64) -> Result<u64, Refusal> {
    let (pool, mut pass) = Pool::make(alloc, MANY)?;
    let mut closed: u64 = 0;
    for _ in 0..rounds {
        let (back, more) = close_as_set(rt, alloc, &pool, pass)?;
        pass = back;
        closed = closed.wrapping_add(u64::from(more));
    }
    Ok(closed)
}

/// The same by one close after another.
pub fn rows<R: Wait>(rt: &R, alloc: Global, rounds: u64) -> Result<u64, Refusal> {
    let (pool, mut pass) = Pool::make(alloc, MANY)?;
    let mut closed: u64 = 0;
    for _ in 0..rounds {
        let arenas = opened(rt, alloc, &pool, &mut pass)?;
        closed = closed.wrapping_add(close_each(rt, &pool, &mut pass, arenas.as_slice())?);
    }
    Ok(closed)
}

/// 64 arenas.
fn opened<R: Wait>(
    rt: &R,
    alloc: Global,
    pool: &Pool,
    pass: &mut Pass,
) -> Result<Vec<ArenaId>, Refusal>
    requires { CanBegin pool.now pass.old }
    ensures knows { IfOk result (λ arenas. Knows pool.now pass.new arenas.items) }
    ensures len { IfOk result (λ arenas. vec_len arenas ≡ 64) }
{
    let mut arenas = Vec::new(alloc);
    for _ in 0..ARENAS {
        let arena = open_arena(rt, pool, pass, Kind::Shared)?;
        if arenas.push(arena).is_err() {
            return Err(Refusal::Memory);
        }
    }
    Ok(arenas)
}

/// Closes 64 arenas by one set.
fn close_as_set<R: Wait>(
    rt: &R,
    alloc: Global,
    pool: &Pool,
    mut pass: Pass,
) -> Result<(Pass, u32), Refusal>
    requires { CanBegin pool.now pass }
    ensures { IfOk result (λ r. CanBegin pool.now r.0) }
{
    let arenas = opened(rt, alloc, pool, &mut pass)?;
    let Ok(mut set) = SetCloser::empty(alloc, pool, pass, ARENAS) else {
        return Err(Refusal::Memory);
    };
    add_all(&mut set, arenas.as_slice());
    end_all(rt, &mut set);
    let closed = set.len();
    set.sweep();
    Ok((set.into_pass(), closed))
}

/// Adds the arenas, up to the first that is refused.
fn add_all(set: &mut SetCloser<'_>, arenas: &[ArenaId])
    requires known { All (λ a. IsKnown set.old.pass a) arenas.now }
    requires none { set.old.closes ≡ [] }
    requires room { set.old.room ≡ 64 }
    requires many { length arenas.now ≡ 64 }
    ensures { set.new.pool ≡ set.old.pool }
{
    for arena in arenas {
        if set.add(*arena).is_err() {
            return;
        }
    }
}

/// Polls until all arenas have ended.
fn end_all<R: Wait>(rt: &R, set: &mut SetCloser<'_>)
    ensures ended { unfinished (closes_of set.new.closes) ≡ 0 }
    ensures pool { set.new.pool ≡ set.old.pool }
{
    for _ in rt.forever() {
        set.advance();
        if set.unfinished() == 0 {
            return;
        }
    }
    unreachable!()
}

/// Closes the arenas one after another, and answers how many there were.
fn close_each<R: Wait>(
    rt: &R,
    pool: &Pool,
    pass: &mut Pass,
    arenas: &[ArenaId],
) -> Result<u64, Refusal>
    requires { Knows pool.now pass.old arenas.now }
    ensures { CanBegin pool.now pass.new }
{
    let mut closed: u64 = 0;
    for arena in arenas {
        close(rt, pool, pass, *arena)?;
        closed = closed.wrapping_add(1);
    }
    Ok(closed)
}
