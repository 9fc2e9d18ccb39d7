ghost use Rattle.std.specs.Prelude.{◌≡◌, ◌<◌, ◌≤◌};
ghost use Rattle.fm_rule.specs.Passes.{IsOf};
ghost use Rattle.fm_rule_facts.specs.Hands.{no_number};
ghost use Rattle.fm_words.specs.Shapes.{IsValid};

use crate::tests::compared::same;
use crate::tests::words::{GREATEST, LEAST};
use fm_base::{ArenaId, Kind};
use fm_rule::{Pass, Pool, alive_holds, mark_of, step_give_page, step_take_page, step_unmark};
use fm_words::Shape;
use std::alloc::AllocGlobal;
use std::process::Abort;
use std::sync::Wait;

const LARGER: Shape = Shape {
    passes: 3,
    slots: 2,
    pages: 4,
    page_words: 8,
    reach: 2,
    generations: 5,
};

/// Pages of the most words, which are fewer.
const WIDEST: Shape = Shape {
    slots: 16,
    pages: 16,
    page_words: 1_048_576,
    reach: 1,
    ..GREATEST
};

const CONFINED: ArenaId = ArenaId {
    slot: 2,
    generation: 5,
    kind: Kind::Confined,
    owner: 3,
    term: 0,
};

/// The word at the place, where the table has one.
fn word_at(pool: &Pool, place: u64) -> Option<u64> {
    if place < pool.shape().words() {
        Some(pool.peek(place))
    } else {
        None
    }
}

/// The words of a new pool that aren't 0, beside the count of draws: the slot bits, the last word of page bits, and the
/// first word of number bits, after its place.
type SetWords = (u64, u64, u64, u64);

/// All words are 0 but the count of draws and these; of more words of page bits or of number bits each is full. Of many
/// words the first and the last are looked at.
fn check_words<R: Abort + AllocGlobal>(rt: &R, shape: Shape, words: u64, set: SetWords)
    requires valid { IsValid shape }
    requires some { 0 < words }
{
    let (pool, _) = Pool::make(rt.alloc(), shape).expect(rt, "words");
    let (slot_bits, page_bits, numbers_at, number_bits) = set;
    let page_bits_at = shape.page_bits_place(0);
    let terms_at = shape.term_place(0);
    for offset in 0..words.min(300_000) {
        for place in [offset, words - 1 - offset] {
            let expected = match place {
                1 => 1,
                2 => slot_bits,
                _ => {
                    if place + 1 == numbers_at {
                        page_bits
                    } else if place == numbers_at {
                        number_bits
                    } else if page_bits_at <= place && place < terms_at {
                        u64::MAX
                    } else {
                        0
                    }
                }
            };
            same(rt, word_at(&pool, place), Some(expected));
        }
    }
    same(rt, word_at(&pool, words), None);
}

#[test]
fn pools_begin_with_zeros_one_draw_and_bits(rt: HostRuntime) {
    check_words(&rt, LEAST, 18, (1, 1, 16, 0));
    check_words(&rt, LARGER, 72, (3, 15, 68, 0b110));
}

/// The first and the last word of number bits of a pool that is new.
fn number_bits_of<R: Abort + AllocGlobal>(rt: &R, passes: u32) -> (Option<u64>, Option<u64>)
    requires some { 0 < passes }
    requires few { passes ≤ 4096 }
{
    let shape = Shape { passes, ..LEAST };
    let (pool, _) = Pool::make(rt.alloc(), shape).expect(rt, "words");
    let first_at = shape.number_bits_place(0);
    let last_at = shape.number_bits_place(shape.groups() - 1);
    (word_at(&pool, first_at), word_at(&pool, last_at))
}

#[test]
fn every_number_but_the_first_is_free(rt: HostRuntime) {
    for (passes, word, last) in [
        (1, 0, 0),
        (2, 0b10, 0b10),
        (63, u64::MAX / 2 - 1, u64::MAX / 2 - 1),
        (64, u64::MAX - 1, u64::MAX - 1),
        (65, u64::MAX - 1, 1),
        (4_096, u64::MAX - 1, u64::MAX),
    ] {
        same(&rt, number_bits_of(&rt, passes), (Some(word), Some(last)));
    }
}

#[test]
fn pools_of_the_greatest_shapes_can_be_had(rt: HostRuntime) {
    let numbers = u64::MAX - 1;
    let greatest = (u64::MAX, u64::MAX, 17_072_323, numbers);
    check_words(&rt, GREATEST, 17_076_483, greatest);
    check_words(
        &rt,
        WIDEST,
        16_814_196,
        (0xffff, 0xffff, 16_810_036, numbers),
    );
}

/// The first and the last word of page bits of a pool that is new.
fn page_bits_of<R: Abort + AllocGlobal>(rt: &R, pages: u32) -> (u64, u64)
    requires some { 0 < pages }
    requires few { pages ≤ 4096 }
{
    let shape = Shape { pages, ..LEAST };
    let (pool, _) = Pool::make(rt.alloc(), shape).expect(rt, "words");
    let first = pool.guess_pages(0);
    (first, pool.guess_pages(shape.page_groups() - 1))
}

#[test]
fn every_page_is_free(rt: HostRuntime) {
    for (pages, first, last) in [
        (1, 1, 1),
        (63, u64::MAX / 2, u64::MAX / 2),
        (64, u64::MAX, u64::MAX),
        (65, u64::MAX, 1),
        (4_096, u64::MAX, u64::MAX),
    ] {
        same(&rt, page_bits_of(&rt, pages), (first, last));
    }
}

#[test]
fn a_page_is_taken_by_its_bit(rt: HostRuntime) {
    let (pool, mut pass) = Pool::make(rt.alloc(), LARGER).expect(&rt, "words");
    same(&rt, step_take_page(&pool, &mut pass, 0, 0b1111, 2), 0b1111);
    same(&rt, word_at(&pool, 67), Some(0b1011));
}

#[test]
fn a_page_of_another_group_is_taken_by_its_bit(rt: HostRuntime) {
    let shape = Shape {
        pages: 66,
        ..LARGER
    };
    let (pool, mut pass) = Pool::make(rt.alloc(), shape).expect(&rt, "words");
    same(&rt, step_take_page(&pool, &mut pass, 1, 0b11, 1), 0b11);
    same(&rt, pool.guess_pages(0), u64::MAX);
    same(&rt, pool.guess_pages(1), 0b01);
    step_give_page(&pool, &mut pass, 65);
    same(&rt, pool.guess_pages(1), 0b11);
}

#[test]
fn the_first_pass_is_outside(rt: HostRuntime) {
    let (pool, mut pass) = Pool::make(rt.alloc(), LARGER).expect(&rt, "words");
    same(&rt, pass.number(), 0);
    same(&rt, pass.inside(), None);
    let note = pool.note(&mut pass);
    pool.meet(&mut pass, note);
    step_unmark(&pool, &mut pass);
    same(&rt, pass.inside(), None);
}

#[test]
fn session_words_show_arenas_that_are_alive(rt: HostRuntime) {
    let rows = [
        (0x0000_0005_6003_0002, Some(2)),
        (0x0000_0005_6003_0000, Some(0)),
        (0x0000_0005_a003_0000, None),
        (0x0000_0004_6003_0002, None),
        (0x0000_0005_6002_0002, None),
        (0x0000_0005_0000_0000, None),
    ];
    for (word, holds) in rows {
        same(&rt, alive_holds(CONFINED, word), holds);
    }
    same(&rt, mark_of(CONFINED), 0x0000_0003_0000_0005);
}

const TWO: Shape = Shape { passes: 2, ..LEAST };

/// Draws the other pass of two, which has this term, and gathers it.
fn comes_back<R: Abort + Wait>(rt: &R, pool: &Pool, first: &mut Pass, term: u32)
    requires of { IsOf pool.now first.old }
    requires none { first.old.number ≡ no_number }
    ensures of { IsOf pool.now first.new }
    ensures none { first.new.number ≡ no_number }
{
    let drawn = pool.draw(rt, first).expect(rt, "a pass");
    same(rt, (drawn.number(), drawn.term()), (1, term));
    same(rt, pool.draw(rt, first).is_err(), true);
    same(rt, pool.whole(first), false);
    pool.gather(first, drawn);
    same(rt, pool.whole(first), true);
}

#[test]
fn a_number_comes_back_with_its_next_term(rt: HostRuntime) {
    let (pool, mut first) = Pool::make(rt.alloc(), TWO).expect(&rt, "words");
    for term in 0..10_000u32 {
        comes_back(&rt, &pool, &mut first, term);
    }
    same(&rt, word_at(&pool, pool.shape().draw_place()), Some(10_001));
}

#[test]
fn the_lowest_free_number_is_drawn(rt: HostRuntime) {
    let shape = Shape { passes: 136, ..TWO };
    let (pool, mut first) = Pool::make(rt.alloc(), shape).expect(&rt, "words");
    for number in 1..136u32 {
        let drawn = pool.draw(&rt, &mut first).expect(&rt, "a pass");
        same(&rt, drawn.number(), number);
    }
    same(&rt, pool.draw(&rt, &mut first).is_err(), true);
}

#[test]
fn a_number_that_comes_back_is_drawn_before_higher_ones(rt: HostRuntime) {
    let shape = Shape { passes: 4, ..TWO };
    let (pool, mut first) = Pool::make(rt.alloc(), shape).expect(&rt, "words");
    let lower = pool.draw(&rt, &mut first).expect(&rt, "a pass");
    let higher = pool.draw(&rt, &mut first).expect(&rt, "a pass");
    same(&rt, (lower.number(), higher.number()), (1, 2));
    pool.gather(&mut first, lower);
    let again = pool.draw(&rt, &mut first).expect(&rt, "a pass");
    same(&rt, (again.number(), again.term()), (1, 1));
    let next = pool.draw(&rt, &mut first).expect(&rt, "a pass");
    same(&rt, (next.number(), next.term()), (3, 0));
}

#[test]
fn the_first_number_comes_back_too(rt: HostRuntime) {
    let (pool, mut first) = Pool::make(rt.alloc(), TWO).expect(&rt, "words");
    let mut second = pool.draw(&rt, &mut first).expect(&rt, "a pass");
    pool.gather(&mut second, first);
    same(&rt, pool.whole(&mut second), true);
    let third = pool.draw(&rt, &mut second).expect(&rt, "a pass");
    same(&rt, (third.number(), third.term()), (0, 1));
    pool.gather(&mut second, third);
    same(&rt, pool.whole(&mut second), true);
}
