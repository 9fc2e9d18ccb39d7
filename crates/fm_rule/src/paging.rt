//! The steps by which a pass gets pages for an arena, and finds them.
#![tactic(auto, using(crate::proofs::Stepping::step_rules), unfolding(fm_rule_facts::specs::Steps::part))]

ghost use Rattle.std.specs.Prelude.{◌≡◌, ◌≢◌, None, ◌<◌, ◌≤◌, ◌/◌, ◌==◌, [], ◌∷◌, IfSome, Some};
ghost use Rattle.fm_base.specs.Calls as machine;
ghost use Rattle.fm_base.specs.Calls.{entry_of};
ghost use Rattle.fm_base.specs.Finds.{TakesPage as Claiming, Maps as Mapping};
ghost use Rattle.fm_rule_facts.specs.Hands.{takes};
ghost use Rattle.fm_rule_facts.specs.Parts.{pages_mapped, pages_taken, reads_after, reads_mapped};
ghost use Rattle.fm_rule_facts.specs.Moves.{LearnsMap};
ghost use Rattle.fm_words.specs.Bits.{number_at};
ghost use Rattle.fm_words.specs.Places.{IsPlace, map};
ghost use Rattle.fm_rule_facts.specs.Steps.{Stepped, none_noted, note_of, where_found};
ghost use Rattle.fm_rule.specs.Passes.{IsOf};
ghost use Rattle.fm_rule.specs.Placing.{FindsPlace};

use crate::acts::{exchange_as, load_as, or_as};
use crate::fitting::quotient;
use crate::pass::{Part, Pass};
use crate::pool::Pool;
use crate::words::bit;
use fm_base::ArenaId;
use fm_rule_facts::Step;
use fm_words::{map_word, without_bit};
use std::marker::Brand;

/// Answers a word of page bits. Where it is the expected one, and the page's bit is 1 in it, the bit is 0 from this step
/// on, and the pass has the page in its hand.
pub fn step_take_page(pool: &Pool, pass: &mut Pass, group: u32, expected: u64, bit: u32) -> u64
    requires of { IsOf pool.now pass.old }
    requires none { pass.old.pages ≡ [] }
    requires few { bit < 64 }
    requires fits { number_at group bit < pool.now.shape.pages }
    ensures { Stepped pass.old pass.new
        (record pass.old { pages = pages_taken (takes expected bit result) (number_at group bit) pass.old.pages }) []
        (note_of (Claiming group expected bit) result pass.old) }
{
    let seat = &mut pass.seat;
    let place = pool.shape.page_bits_place(group);
    let next = without_bit(expected, bit);
    let step = Step::Claims(group, expected, bit);
    exchange_as::<Brand>(pool, seat, place, expected, next, step)
}

/// Answers the map word of this part of the arena that the pass is inside. Where it is 0, the page in the pass's hand is
/// the arena's from this step on, as this part.
pub fn step_map(pool: &Pool, pass: &mut Pass, id: ArenaId, index: u32, page: u32) -> u64
    requires of { IsOf pool.now pass.old }
    requires inside { pass.old.inside ≡ Some id }
    requires low { index < pool.now.shape.reach }
    requires page { pass.old.pages ≡ page ∷ [] }
    ensures low { result ≤ pass.old.shape.pages }
    ensures stepped { Stepped pass.old pass.new
        (record pass.old {
          reads = reads_mapped index page result pass.old.reads;
          pages = pages_mapped result pass.old.pages;
        })
        (where_found (result == 0) (entry_of pass.old.caller (machine.Lend page id index) machine.Fine ∷ []))
        (note_of (Mapping id index page) result pass.old) }
{
    let seat = &mut pass.seat;
    let place = pool.shape.map_place(id.slot, index);
    let new = map_word(page);
    let step = Step::Maps(id, index, page);
    exchange_as::<Brand>(pool, seat, place, 0, new, step)
}

/// Answers the map word of this part of the arena that the pass is inside. Unless it is 0, it stands while the pass is
/// inside.
#[inline(always)]
pub fn step_read_map(pool: &Pool, pass: &mut Pass, id: ArenaId, index: u32) -> u64
    requires of { IsOf pool.now pass.old }
    requires inside { pass.old.inside ≡ Some id }
    requires low { index < pool.now.shape.reach }
    ensures map { LearnsMap pass.old id index result pass.new }
    ensures stepped { Stepped pass.old pass.new
        (record pass.old { reads = reads_after index result pass.old.reads }) [] none_noted }
{
    let seat = &mut pass.seat;
    let place = pool.shape.map_place(id.slot, index);
    let word = load_as::<Brand>(pool, seat, place, Step::ReadsMap(id, index));
    pass.other = pass.part;
    pass.part = pool.part_of(id.slot, index, word);
    word
}

/// Where the word of this index of the arena that the pass is inside stands, by the map word of its part.
///
/// Of the two parts that the pass read last all is kept but their map words: their pages may have been given back since,
/// and others may have come. Where the part's map word is as it was, the place is found without the shape.
#[inline(always)]
pub fn step_find(pool: &Pool, pass: &mut Pass, id: ArenaId, word: u64) -> u64
    requires of { IsOf pool.now pass.old }
    requires inside { pass.old.inside ≡ Some id }
    requires low { word / pool.now.shape.page_words < pool.now.shape.reach }
    ensures { FindsPlace pass.old id word result pass.new }
{
    match find_in_last(pool, pass, id, word) {
        Some(place) => place,
        None => step_find_anew(pool, pass, word),
    }
}

/// As `step_find`, if the word lies in the part that the pass read last; else nothing is done.
#[inline(always)]
fn find_in_last(pool: &Pool, pass: &mut Pass, id: ArenaId, word: u64) -> Option<u64>
    requires of { IsOf pool.now pass.old }
    requires inside { pass.old.inside ≡ Some id }
    ensures found { IfSome result (λ place. FindsPlace pass.old id word place pass.new) }
    ensures none { result ≡ None → pass.new ≡ pass.old }
{
    let part = pass.part;
    if part.slot == id.slot && part.first <= word && word - part.first < part.size {
        let seat = &mut pass.seat;
        let step = Step::ReadsMap(id, part.index);
        let found = load_as::<Brand>(pool, seat, part.word_at, step);
        if found == part.word {
            pass.part.words = part.size;
            return Some(part.from + (word - part.first));
        }
        keep_part(pool, pass, part.slot, part.index, found);
        return Some(pool.word_place(found, (word - part.first) as u32));
    }
    None
}

/// Keeps the part of this index, which has another page now, for later looks at it. In a call of its own, since the
/// compiler makes room for a part ready where this stands.
#[inline(never)]
fn keep_part(pool: &Pool, pass: &mut Pass, slot: u32, index: u32, word: u64)
    requires of { IsOf pool.now pass.old }
    requires low { word ≤ pool.now.shape.pages }
    requires place { IsPlace pool.now.shape (map slot index) }
    ensures { pass.new ≡ pass.old }
{
    let part = pool.part_of(slot, index, word);
    pass.part = Part { words: 0, ..part };
}

/// As `step_find`, of the other part that the pass keeps, or of any. The arena is the one that the pass is inside: its
/// name would be put into memory for this call at each visit.
#[inline(never)]
fn step_find_anew(pool: &Pool, pass: &mut Pass, word: u64) -> u64
    requires of { IsOf pool.now pass.old }
    requires inside { pass.old.inside ≢ None }
    requires low { word / pool.now.shape.page_words < pool.now.shape.reach }
    ensures { (a : ArenaId) → pass.old.inside ≡ Some a → FindsPlace pass.old a word result pass.new }
{
    match pass.inside() {
        None => unreachable!(),
        Some(a) => {
            pass.swap_parts();
            match find_in_last(pool, pass, a, word) {
                Some(place) => place,
                None => {
                    pass.swap_parts();
                    read_anew(pool, pass, a, word)
                }
            }
        }
    }
}

/// As `step_find`, by the shape.
fn read_anew(pool: &Pool, pass: &mut Pass, id: ArenaId, word: u64) -> u64
    requires of { IsOf pool.now pass.old }
    requires inside { pass.old.inside ≡ Some id }
    requires low { word / pool.now.shape.page_words < pool.now.shape.reach }
    ensures { FindsPlace pass.old id word result pass.new }
{
    let size = u64::from(pool.shape.page_words);
    let index = quotient(word, size);
    let found = step_read_map(pool, pass, id, index as u32);
    pool.word_place(found, (word - index * size) as u32)
}

/// Makes the bit of the page 1 that the pass has in its hand: it can be claimed from this step on.
pub fn step_give_page(pool: &Pool, pass: &mut Pass, page: u32)
    requires of { IsOf pool.now pass.old }
    requires page { pass.old.pages ≡ page ∷ [] }
    ensures { Stepped pass.old pass.new (record pass.old { pages = [] }) [] none_noted }
{
    let seat = &mut pass.seat;
    let place = pool.shape.page_bits_place(page / 64);
    let bits = bit(page % 64);
    or_as::<Brand>(pool, seat, place, bits, Step::GivesPage(page));
}
