//! Pools, arenas in them that give their first bytes, and passes that are drawn and gathered.
ghost use Rattle.std.specs.Prelude.{◌*◌, ◌≤◌, IfOk};
ghost use Rattle.fm_words.specs.Shapes.{IsValid};
ghost use Rattle.fm_bench.specs.Ready.{CanRead, FreeAfter, IsFree, IsOpen};

use fm_base::{ArenaId, Kind, Refusal};
use fm_gate::{a_crew_stands, allocate, enter, leave, open_arena, swap_if};
use fm_rule::{Pass, Pool};
use fm_words::Shape;
use std::alloc::Global;
use std::sync::Wait;

/// 16 passes, and one slot of a page of eight words, for one arena.
pub const ONE: Shape = Shape {
    passes: 16,
    slots: 1,
    pages: 1,
    page_words: 8,
    reach: 1,
    generations: 1,
};

/// The same for arenas one after another, for a long time.
pub const AGAIN: Shape = Shape {
    generations: 4_294_967_295,
    ..ONE
};

/// A pool of this shape.
pub fn made(alloc: Global, shape: Shape) -> Result<(Pool, Pass), Refusal>
    requires { IsValid shape }
    ensures { IfOk result (λ r. IsFree r.0 r.1) }
{
    Pool::make(alloc, shape)
}

/// Opens an arena that gives so many bytes.
pub fn given<R: Wait>(rt: &R, pool: &Pool, pass: &mut Pass, bytes: u64) -> Result<ArenaId, Refusal>
    requires { IsFree pool.now pass.old }
    ensures free { FreeAfter pool.now pass.old pass.new }
    ensures open { IfOk result (λ a. IsOpen pass.new bytes a) }
{
    let arena = open_arena(rt, pool, pass, Kind::Shared)?;
    allocate(rt, pool, pass, arena, bytes, 8)?;
    Ok(arena)
}

/// What is put into the words of an arena.
#[derive(Clone, Copy)]
pub enum Pattern {
    /// A number that no other arena's words have, and that isn't 0.
    OfArena,
    /// The words' numbers, from this one on, each so often; wrapping.
    Times(u64, u64),
}

impl Pattern {
    /// What the arena's word of this number gets.
    pub fn word_of(self, a: ArenaId, word: u64) -> u64 {
        match self {
            Pattern::OfArena => u64::from(a.generation) * 64 + u64::from(a.slot % 64) + 1,
            Pattern::Times(first, times) => first.wrapping_add(word).wrapping_mul(times),
        }
    }
}

/// Opens an arena of so many words that hold the pattern.
pub fn filled<R: Wait>(
    rt: &R,
    pool: &Pool,
    pass: &mut Pass,
    words: u64,
    pattern: Pattern,
) -> Result<ArenaId, Refusal>
    requires free { IsFree pool.now pass.old }
    requires few { words ≤ 8192 }
    ensures free { FreeAfter pool.now pass.old pass.new }
    ensures open { IfOk result (λ a. IsOpen pass.new (words * 8) a) }
{
    let a = given(rt, pool, pass, words * 8)?;
    fill(pool, pass, a, words, pattern)?;
    Ok(a)
}

/// Puts the pattern into each of the arena's words that is 0, and answers whether all of them were.
pub fn fill(
    pool: &Pool,
    pass: &mut Pass,
    a: ArenaId,
    words: u64,
    pattern: Pattern,
) -> Result<bool, Refusal>
    requires { CanRead pool.now pass.old (words * 8) a }
    ensures { FreeAfter pool.now pass.old pass.new }
{
    enter(pool, pass, a)?;
    let mut found: u64 = 0;
    for word in 0..words {
        found |= swap_if(pool, pass, word, 0, pattern.word_of(a, word));
    }
    leave(pool, pass);
    Ok(found == 0)
}

/// A pass is drawn, which knows what its giver knows.
#[inline(always)]
pub fn drawn<R: Wait>(rt: &R, pool: &Pool, pass: &mut Pass) -> Result<Pass, Refusal>
    requires { IsFree pool.now pass.old }
    ensures free { FreeAfter pool.now pass.old pass.new }
    ensures drawn { IfOk result (λ p. FreeAfter pool.now pass.old p) }
{
    a_crew_stands();
    pool.draw(rt, pass)
}

/// A pass takes another in.
#[inline(always)]
pub fn take_in(pool: &Pool, pass: &mut Pass, other: Pass)
    requires free { IsFree pool.now pass.old }
    requires other { IsFree pool.now other }
    ensures { FreeAfter pool.now pass.old pass.new }
{
    a_crew_stands();
    pool.gather(pass, other);
}
