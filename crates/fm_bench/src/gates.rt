//! Visits of arenas of a pool.
ghost use Rattle.std.specs.Prelude.{◌≡◌, ◌*◌, ◌<◌, length};
ghost use Rattle.fm_rule_facts.specs.Views.{IsKnown, given_of};
ghost use Rattle.fm_rule_calls.specs.Kept.{Lasts};
ghost use Rattle.fm_gate.specs.{Crews.{HasNothing}, Needs.{IsInside}};
ghost use Rattle.fm_words.specs.Shapes.{IsValid};
ghost use Rattle.fm_bench.specs.Ready.{AreOpen, CanRead, FreeAfter, IsFree};

use crate::pools::{AGAIN, ONE, Pattern, filled, made};
use fm_base::{ArenaId, Kind, Refusal};
use fm_close::close;
use fm_gate::{add, enter, leave, load, open_arena};
use fm_rule::{Pass, Pool};
use fm_words::Shape;
use std::alloc::Global;
use std::sync::Wait;

/// The words of the arena that is visited, or of all arenas together.
const WORDS: u64 = 8_192;

/// The slots of a pool with many arenas.
const SLOTS: u32 = 64;

/// The words of each of these.
const SHARE: u64 = 128;

/// One arena, whose words lie in one page.
pub const PAGE: Shape = Shape {
    page_words: 8_192,
    ..ONE
};

/// One slot, whose arenas have up to 64 pages of 128 words.
pub const PAGES: Shape = Shape {
    pages: 64,
    page_words: 128,
    reach: 64,
    ..AGAIN
};

/// 64 slots, each for one arena of 128 words.
const MANY: Shape = Shape {
    slots: SLOTS,
    pages: SLOTS,
    page_words: 128,
    ..ONE
};

/// 64 slots, each for one arena of a word.
const SMALL: Shape = Shape {
    page_words: 1,
    ..MANY
};

/// Which word of an arena is visited next.
#[derive(Clone, Copy)]
pub enum Next {
    /// What was found says it.
    Found,
    /// The one after it.
    InTurn,
}

/// Visits words of an arena of a pool, so often, and answers them joined by exclusive or, or those in turn added up.
///
/// Each visit enters the arena, loads one word and leaves. Word w holds w times `count`, wrapping.
pub fn gates<R: Wait>(
    rt: &R,
    alloc: Global,
    count: u64,
    shape: Shape,
    next: Next,
) -> Result<u64, Refusal>
    requires { IsValid shape }
{
    let (pool, mut pass) = made(alloc, shape)?;
    let arena = filled(rt, &pool, &mut pass, WORDS, Pattern::Times(0, count))?;
    match next {
        Next::InTurn => rounds(pool, pass, arena, count / WORDS),
        Next::Found => visits(pool, pass, arena, count),
    }
}

/// The visits alone. The pool and the pass are moved here, so that the compiler knows that nothing else has a name for
/// them.
fn visits(pool: Pool, mut pass: Pass, arena: ArenaId, count: u64) -> Result<u64, Refusal>
    requires { CanRead pool pass 65536 arena }
{
    let mut joined: u64 = 0;
    for turn in 0..count {
        joined ^= visit(
            &pool,
            &mut pass,
            arena,
            joined.wrapping_add(turn) % WORDS,
            Act::Load,
        )?;
    }
    Ok(joined)
}

/// So many rounds over all words, one after another, alone.
fn rounds(pool: Pool, mut pass: Pass, arena: ArenaId, count: u64) -> Result<u64, Refusal>
    requires { CanRead pool pass 65536 arena }
{
    let mut joined: u64 = 0;
    for _ in 0..count {
        for word in 0..WORDS {
            joined = joined.wrapping_add(visit(&pool, &mut pass, arena, word, Act::Load)?);
        }
    }
    Ok(joined)
}

/// The same of 64 arenas, whose words follow one another: what was found says which arena is next, too.
pub fn hops<R: Wait>(rt: &R, alloc: Global, count: u64) -> Result<u64, Refusal> {
    let (pool, mut pass) = made(alloc, MANY)?;
    let mut arenas: Vec<ArenaId> = Vec::new(alloc);
    for slot in 0..u64::from(SLOTS) {
        let arena = filled(
            rt,
            &pool,
            &mut pass,
            SHARE,
            Pattern::Times(SHARE * slot, count),
        )?;
        if arenas.push(arena).is_err() {
            return Err(Refusal::Memory);
        }
    }
    leaps(pool, pass, &arenas, count)
}

/// The visits of many arenas alone.
fn leaps(pool: Pool, mut pass: Pass, arenas: &[ArenaId], count: u64) -> Result<u64, Refusal>
    requires ready { AreOpen pool pass arenas.now 1024 }
    requires many { length arenas.now ≡ 64 }
{
    let mut joined: u64 = 0;
    for turn in 0..count {
        let word = joined.wrapping_add(turn) % WORDS;
        let arena = arenas[(word / SHARE) as usize];
        joined ^= visit(&pool, &mut pass, arena, word % SHARE, Act::Load)?;
    }
    Ok(joined)
}

/// Opens and closes arenas in pools of 16 passes, so many pools of 64 arenas, and answers how many were closed.
pub fn closes<R: Wait>(rt: &R, alloc: Global, pools: u64) -> Result<u64, Refusal> {
    let mut closed: u64 = 0;
    for _ in 0..pools {
        let (pool, mut pass) = made(alloc, SMALL)?;
        for _ in 0..SLOTS {
            let arena = open_arena(rt, &pool, &mut pass, Kind::Shared)?;
            close(rt, &pool, &mut pass, arena)?;
            closed = closed.wrapping_add(1);
        }
    }
    Ok(closed)
}

/// An act on a word.
#[derive(Clone, Copy)]
pub enum Act {
    Load,
    Add,
}

/// Acts on a word in a visit of its own, and answers what it found.
#[inline(always)]
pub fn visit(
    pool: &Pool,
    pass: &mut Pass,
    arena: ArenaId,
    word: u64,
    act: Act,
) -> Result<u64, Refusal>
    requires free { IsFree pool.now pass.old }
    requires known { IsKnown pass.old arena }
    requires within { 8 * word < given_of pass.old arena }
    ensures { FreeAfter pool.now pass.old pass.new }
{
    enter(pool, pass, arena)?;
    let found = act_inside(pool, pass, arena, word, act);
    leave(pool, pass);
    Ok(found)
}

/// Acts on a word of the arena that the pass is inside.
#[inline(always)]
fn act_inside(pool: &Pool, pass: &mut Pass, arena: ArenaId, word: u64, act: Act) -> u64
    requires inside { IsInside pool.now pass.old arena }
    requires nothing { HasNothing pass.old }
    requires within { 8 * word < given_of pass.old arena }
    ensures inside { IsInside pool.now pass.new arena }
    ensures nothing { HasNothing pass.new }
    ensures lasts { Lasts pass.old pass.new }
{
    match act {
        Act::Load => load(pool, pass, word),
        Act::Add => add(pool, pass, word, 1),
    }
}
