ghost use Rattle.std.specs.Prelude.{◌≡◌, ◌<◌, ◌≤◌, [], None, Some};
ghost use Rattle.fm_words.specs.Shapes.{IsValid};
ghost use Rattle.fm_rule_facts.specs.Hands.{learnt, no_number, nothing};
ghost use Rattle.fm_rule.specs.Passes.{IsOf};
ghost use Rattle.fm_pages.specs.Claims.{HasClaimed, PageClaimed, Went};

use crate::tests::compared::same;
use fm_base::{ArenaId, Kind, Refusal};
use fm_pages::{Page, claim, free_page, map, place_of, try_at};
use fm_rule::{
    Pass, Pool, step_check, step_generation, step_mark, step_open, step_take_page, step_take_slot,
};
use fm_rule_facts::Slot;
use fm_words::Shape;
use std::alloc::AllocGlobal;
use std::process::Abort;
use std::sync::Wait;

/// Two pages of four words, which one arena can have.
const TWO: Shape = Shape {
    passes: 2,
    slots: 1,
    pages: 2,
    page_words: 4,
    reach: 2,
    generations: 1,
};

/// So many pages of one word, which one arena can have.
fn of_pages(pages: u32) -> Shape
    requires some { 0 < pages }
    requires few { pages ≤ 4096 }
    ensures valid { IsValid result }
{
    Shape {
        pages,
        page_words: 1,
        reach: pages,
        ..TWO
    }
}

/// The first slot of a pool that has just been made.
fn first_slot<R: Abort>(rt: &R, pool: &Pool, pass: &mut Pass) -> Slot
    requires of { IsOf pool.now pass.old }
    requires some { 0 < pool.now.shape.slots }
    requires empty { pass.old.hand ≡ nothing }
    ensures hand { pass.new.hand ≡ learnt result.slot result.generation }
    ensures is { pass.new ≡ record pass.old { seen = pass.new.seen; finds = pass.new.finds; hand = pass.new.hand } }
{
    let found = step_take_slot(pool, pass, 1, 0);
    same(rt, found == 1, true);
    let word = step_generation(pool, pass, 0);
    Slot {
        slot: 0,
        generation: (word >> 32) as u32,
    }
}

/// The first pass of a new pool of one slot, inside an arena.
fn entered<R: Abort + AllocGlobal>(rt: &R, shape: Shape) -> (Pool, Pass, ArenaId)
    requires { IsValid shape }
    ensures shape { result.0.shape ≡ shape }
    ensures of { IsOf result.0 result.1 }
    ensures inside { result.1.inside ≡ Some result.2 }
    ensures none { result.1.pages ≡ [] }
    ensures no_number { result.1.number ≡ no_number }
{
    let (pool, mut pass) = Pool::make(rt.alloc(), shape).expect(rt, "words");
    let slot = first_slot(rt, &pool, &mut pass);
    let opened = step_open(&pool, &mut pass, slot, Kind::Global);
    step_mark(&pool, &mut pass, opened);
    step_check(&pool, &mut pass, opened);
    let a = pass.inside().expect(rt, "an arena that is alive");
    (pool, pass, a)
}

/// Claims the free page, which is this one.
fn claimed<R: Abort + Wait>(rt: &R, pool: &Pool, pass: &mut Pass, index: u32) -> Page
    requires of { IsOf pool.now pass.old }
    requires none { pass.old.pages ≡ [] }
    ensures claimed { PageClaimed pass.old pass.new result.index }
    ensures page { HasClaimed pass.new result }
{
    match claim(rt, pool, pass) {
        Ok(page) => {
            same(rt, page.index(), index);
            page
        }
        Err(_) => panic!(rt; "no page"),
    }
}

/// What one try is answered for so many bytes of an arena that is taken to have given so many.
fn tried<R: Wait>(
    rt: &R,
    pool: &Pool,
    pass: &mut Pass,
    id: ArenaId,
    count: u64,
    size: u64,
) -> Option<u64>
    requires of { IsOf pool.now pass.old }
    requires none { pass.old.pages ≡ [] }
    requires inside { pass.old.inside ≡ Some id }
    ensures of { IsOf pool.now pass.new }
    ensures none { pass.new.pages ≡ [] }
    ensures inside { pass.new.inside ≡ Some id }
{
    try_at(rt, pool, pass, id, count, size, 8)
}

/// Claims the free page, which is this one, and gives it back.
fn claimed_once<R: Abort + Wait>(rt: &R, pool: &Pool, pass: &mut Pass, index: u32)
    requires of { IsOf pool.now pass.old }
    requires none { pass.old.pages ≡ [] }
    ensures of { IsOf pool.now pass.new }
    ensures none { pass.new.pages ≡ [] }
{
    let page = claimed(rt, pool, pass, index);
    free_page(pool, pass, page);
}

/// Gives bytes of an arena that has given so many.
fn given<R: Abort + Wait>(rt: &R, pool: &Pool, pass: &mut Pass, id: ArenaId, count: u64, size: u64)
    requires of { IsOf pool.now pass.old }
    requires none { pass.old.pages ≡ [] }
    requires inside { pass.old.inside ≡ Some id }
    ensures of { IsOf pool.now pass.new }
    ensures none { pass.new.pages ≡ [] }
    ensures inside { pass.new.inside ≡ Some id }
{
    same(rt, tried(rt, pool, pass, id, count, size), Some(count));
}

/// Finds no page to claim.
fn found_full<R: Abort + Wait>(rt: &R, pool: &Pool, pass: &mut Pass)
    requires of { IsOf pool.now pass.old }
    requires none { pass.old.pages ≡ [] }
    ensures { Went pass.old pass.new [] }
{
    match claim(rt, pool, pass) {
        Ok(page) => {
            free_page(pool, pass, page);
            panic!(rt; "a page was free")
        }
        Err(refusal) => same(rt, refusal, Refusal::PoolFull),
    }
}

/// Finds no bit in this word of page bits.
fn found_empty<R: Abort>(rt: &R, pool: &Pool, pass: &mut Pass, group: u32)
    requires of { IsOf pool.now pass.old }
    requires none { pass.old.pages ≡ [] }
    ensures { Went pass.old pass.new [] }
{
    same(rt, group < pool.shape().page_groups(), true);
    same(rt, step_take_page(pool, pass, group, 0, 0), 0);
}

#[test]
fn a_page_is_claimed_and_given_back(rt: HostRuntime) {
    let (pool, mut pass, _) = entered(&rt, TWO);
    claimed_once(&rt, &pool, &mut pass, 0);
    claimed_once(&rt, &pool, &mut pass, 0);
}

#[test]
fn a_page_that_is_mapped_has_the_words_of_its_part(rt: HostRuntime) {
    let (pool, mut pass, a) = entered(&rt, TWO);
    let page = claimed(&rt, &pool, &mut pass, 0);
    match map(&pool, &mut pass, a, 1, page) {
        Some(page) => {
            free_page(&pool, &mut pass, page);
            panic!(&rt; "the part had a page")
        }
        None => {
            let place = place_of(&pool, &mut pass, 5);
            same(&rt, place, pool.shape().page_place(0, 1));
        }
    }
}

#[test]
fn a_page_comes_back_from_a_part_that_has_one(rt: HostRuntime) {
    let (pool, mut pass, a) = entered(&rt, TWO);
    given(&rt, &pool, &mut pass, a, 0, 8);
    let page = claimed(&rt, &pool, &mut pass, 1);
    match map(&pool, &mut pass, a, 0, page) {
        Some(page) => {
            same(&rt, page.index(), 1);
            free_page(&pool, &mut pass, page);
        }
        None => panic!(&rt; "the part had no page"),
    }
}

#[test]
fn a_pool_is_full_once_all_pages_are_mapped(rt: HostRuntime) {
    let (pool, mut pass, a) = entered(&rt, TWO);
    given(&rt, &pool, &mut pass, a, 0, 40);
    found_full(&rt, &pool, &mut pass);
}

#[test]
fn the_lowest_free_page_of_all_words_is_claimed(rt: HostRuntime) {
    // of so many pages, so many are lent
    let rows = [
        (64, 63),
        (65, 0),
        (65, 63),
        (65, 64),
        (129, 128),
        (4_096, 64),
        (4_096, 4_095),
    ];
    for (pages, lent) in rows {
        let (pool, mut pass, a) = entered(&rt, of_pages(pages));
        given(&rt, &pool, &mut pass, a, 0, 8 * u64::from(lent));
        claimed_once(&rt, &pool, &mut pass, lent);
    }
}

#[test]
fn a_pool_is_full_once_the_pages_of_all_words_are_mapped(rt: HostRuntime) {
    for pages in [64, 65, 128, 4_096] {
        let (pool, mut pass, a) = entered(&rt, of_pages(pages));
        given(&rt, &pool, &mut pass, a, 0, 8 * u64::from(pages));
        found_full(&rt, &pool, &mut pass);
    }
}

#[test]
fn a_page_that_comes_free_behind_a_look_is_found_by_the_next(rt: HostRuntime) {
    let (pool, mut pass, a) = entered(&rt, of_pages(65));
    let mut other = pool.draw(&rt, &mut pass).expect(&rt, "a pass");
    let page = claimed(&rt, &pool, &mut other, 0);
    given(&rt, &pool, &mut pass, a, 0, 512);
    found_full(&rt, &pool, &mut pass);
    // The page comes free in the first word while the second is looked at: each was found empty, but not at one time.
    found_empty(&rt, &pool, &mut pass, 0);
    free_page(&pool, &mut other, page);
    found_empty(&rt, &pool, &mut pass, 1);
    claimed_once(&rt, &pool, &mut pass, 0);
}

#[test]
fn a_try_finds_no_page_while_another_pass_has_it(rt: HostRuntime) {
    let (pool, mut pass, a) = entered(&rt, TWO);
    let mut other = pool.draw(&rt, &mut pass).expect(&rt, "a pass");
    given(&rt, &pool, &mut pass, a, 0, 8);
    let page = claimed(&rt, &pool, &mut other, 1);
    same(&rt, tried(&rt, &pool, &mut pass, a, 8, 32), None);
    free_page(&pool, &mut other, page);
    same(&rt, tried(&rt, &pool, &mut pass, a, 0, 32), Some(8));
    given(&rt, &pool, &mut pass, a, 8, 32);
}
