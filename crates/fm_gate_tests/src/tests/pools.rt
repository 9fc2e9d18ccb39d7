//! What tests of the gate and of closing both need.
ghost use Rattle.std.specs.Prelude.{◌≡◌, ◌<◌, ◌≤◌, ◌*◌, true};
ghost use Rattle.fm_rule_facts.specs.Views.{given_of, span};
ghost use Rattle.fm_rule_calls.specs.Kept.{Lasts};
ghost use Rattle.fm_gate.specs.Crews.{HasNothing, StandsOn};
ghost use Rattle.fm_gate.specs.Needs.{CanAllocate, CanVisit, IsOutside};
ghost use Rattle.fm_arena.specs.Shares.{CanShare};
ghost use Rattle.fm_words.specs.Shapes.{IsValid};

use crate::tests::compared::same;
use fm_base::{ArenaId, Kind, Refusal};
use fm_gate::{a_crew_stands, allocate, enter, leave, load, open_arena};
use fm_rule::{Pass, Pool};
use fm_words::Shape;
use std::alloc::AllocGlobal;
use std::process::Abort;
use std::sync::Wait;

/// A pool of this shape, and its first pass.
pub(crate) fn pool_as<R: Abort + AllocGlobal>(rt: &R, shape: Shape) -> (Pool, Pass)
    requires { IsValid shape }
    ensures { CanShare result.0 result.1 }
{
    Pool::make(rt.alloc(), shape).expect(rt, "words")
}

/// A pool for so many passes, whose slots have one page each, and so many arenas one after another; and its first pass.
pub(crate) fn pool_of<R: Abort + AllocGlobal>(
    rt: &R,
    passes: u32,
    slots: u32,
    page_words: u32,
    generations: u32,
) -> (Pool, Pass)
    requires some_passes { 0 < passes }
    requires few_passes { passes ≤ 4096 }
    requires some_slots { 0 < slots }
    requires few_slots { slots < 65 }
    requires some_words { 0 < page_words }
    requires few_words { page_words ≤ 8192 }
    requires some_generations { 0 < generations }
    ensures ready { CanShare result.0 result.1 }
    ensures nothing { HasNothing result.1 }
    ensures whole { result.1.whole ≡ true }
    ensures wide { span result.0.shape ≡ page_words }
    ensures passes { result.0.shape.passes ≡ passes }
{
    let shape = Shape {
        passes,
        slots,
        pages: slots,
        page_words,
        reach: 1,
        generations,
    };
    Pool::make(rt.alloc(), shape).expect(rt, "words")
}

/// A pool for two passes of so many pages, all of which one arena can have; and its first pass.
pub(crate) fn paged<R: Abort + AllocGlobal>(
    rt: &R,
    slots: u32,
    pages: u32,
    page_words: u32,
    generations: u32,
) -> (Pool, Pass)
    requires some_slots { 0 < slots }
    requires few_slots { slots < 65 }
    requires some_pages { 0 < pages }
    requires few_pages { pages ≤ 4096 }
    requires some_words { 0 < page_words }
    requires few_words { page_words ≤ 4096 }
    requires some_generations { 0 < generations }
    ensures { CanShare result.0 result.1 }
{
    let shape = Shape {
        passes: 2,
        slots,
        pages,
        page_words,
        reach: pages,
        generations,
    };
    pool_as(rt, shape)
}

/// Whether no slot is free.
pub(crate) fn is_full<R: Wait>(rt: &R, pool: &Pool, pass: &mut Pass) -> bool
    requires { IsOutside pool.now pass.old }
    ensures { IsOutside pool.now pass.new }
{
    open_arena(rt, pool, pass, Kind::Shared) == Err(Refusal::NoSlot)
}

/// Opens an arena.
pub(crate) fn new_arena<R: Abort + Wait>(
    rt: &R,
    pool: &Pool,
    pass: &mut Pass,
    kind: Kind,
) -> ArenaId
    requires outside { IsOutside pool.now pass.old }
    ensures visit { CanVisit pool.now pass.new result }
    ensures pages { pass.new.pages ≡ pass.old.pages }
    ensures lasts { Lasts pass.old pass.new }
{
    open_arena(rt, pool, pass, kind).expect(rt, "a slot")
}

/// Opens an arena, and gives its first bytes, so many.
pub(crate) fn given<R: Abort + Wait>(
    rt: &R,
    pool: &Pool,
    pass: &mut Pass,
    kind: Kind,
    bytes: u64,
) -> ArenaId
    requires { CanShare pool.now pass.old }
    ensures can { CanAllocate pool.now pass.new result }
    ensures given { bytes ≤ given_of pass.new result }
    ensures whole { pass.new.whole ≡ pass.old.whole }
    ensures lasts { Lasts pass.old pass.new }
{
    let a = open_arena(rt, pool, pass, kind).expect(rt, "a slot");
    same(rt, allocate(rt, pool, pass, a, bytes, 8), Ok(0));
    a
}

/// Loads a word in a visit of its own.
pub(crate) fn word_of(
    pool: &Pool,
    pass: &mut Pass,
    arena: ArenaId,
    word: u64,
) -> Result<u64, Refusal>
    requires ready { CanVisit pool.now pass.old arena }
    requires within { 8 * word < given_of pass.old arena }
    ensures outside { IsOutside pool.now pass.new }
    ensures lasts { Lasts pass.old pass.new }
{
    enter(pool, pass, arena)?;
    let found = load(pool, pass, word);
    leave(pool, pass);
    Ok(found)
}

/// A pass is drawn, which has nothing.
pub(crate) fn drawn<R: Abort + Wait>(rt: &R, pool: &Pool, giver: &mut Pass) -> Pass
    requires outside { IsOutside pool.now giver.old }
    ensures giver { StandsOn pool.now giver.old giver.new }
    ensures pages { giver.new.pages ≡ giver.old.pages }
    ensures outside { IsOutside pool.now result }
    ensures lasts { Lasts giver.old result }
    ensures nothing { HasNothing result }
{
    a_crew_stands();
    pool.draw(rt, giver).expect(rt, "a number")
}

/// Whether the pass has every caller that was drawn.
pub(crate) fn is_whole(pool: &Pool, pass: &mut Pass) -> bool
    requires outside { IsOutside pool.now pass.old }
    ensures outside { IsOutside pool.now pass.new }
    ensures lasts { Lasts pass.old pass.new }
{
    a_crew_stands();
    pool.whole(pass)
}

/// A pass takes the other in.
pub(crate) fn takes_in(pool: &Pool, pass: &mut Pass, other: Pass)
    requires outside { IsOutside pool.now pass.old }
    requires other { IsOutside pool.now other }
    requires nothing { HasNothing other }
    ensures stands { StandsOn pool.now pass.old pass.new }
    ensures lasts { Lasts other pass.new }
{
    a_crew_stands();
    pool.gather(pass, other);
}
