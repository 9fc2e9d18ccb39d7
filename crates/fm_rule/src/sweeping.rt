//! The steps by which an arena that has ended gives its pages and its slot back.
#![tactic(auto, using(crate::proofs::Stepping::step_rules), unfolding(fm_rule_facts::specs::Steps::part))]

ghost use Rattle.std.specs.Prelude.{◌≡◌, ◌<◌, ◌≤◌, ◌+◌, ◌==◌, if◌then◌else◌, [], ◌∷◌, Some};
ghost use Rattle.fm_base.specs.Calls as machine;
ghost use Rattle.fm_base.specs.Calls.{entry_of};
ghost use Rattle.fm_rule_facts.specs.Parts.{unread, named, wiping, swept_read};
ghost use Rattle.fm_rule_facts.specs.Closes.{passed_of, advanced, dropped};
ghost use Rattle.fm_rule_facts.specs.Hands.{nothing, retired, hand_retired};
ghost use Rattle.fm_rule_facts.specs.Views.{given_of};
ghost use Rattle.fm_rule_facts.specs.Steps.{Stepped, AreAllGiven, none_noted};
ghost use Rattle.fm_rule.specs.Passes.{IsOf};

use crate::acts::{load_as, or_as, store_as};
use crate::pass::Pass;
use crate::pool::Pool;
use crate::words::{bit, retired_word};
use fm_base::ArenaId;
use fm_rule_facts::Step;
use std::marker::Brand;

/// Answers how many bytes an arena gave that has ended, at the beginning of its sweep. It gives no more.
pub fn step_sweep_given(pool: &Pool, pass: &mut Pass, id: ArenaId) -> u64
    requires of { IsOf pool.now pass.old }
    requires sweep { passed_of pass.old.sweeps id ≡ Some 0 }
    ensures count { result ≡ given_of pass.new id }
    ensures stepped { Stepped pass.old pass.new pass.old [] none_noted }
{
    let seat = &mut pass.seat;
    let place = pool.shape.given_place(id.slot);
    load_as::<Brand>(pool, seat, place, Step::SweepsGiven(id))
}

/// Answers the map word of the next part that the sweep of the arena comes to. Where it is 0, the part is behind it.
pub fn step_sweep_map(pool: &Pool, pass: &mut Pass, id: ArenaId, index: u32) -> u64
    requires of { IsOf pool.now pass.old }
    requires sweep { passed_of pass.old.sweeps id ≡ Some index }
    requires low { index < pool.now.shape.reach }
    requires idle { pass.old.swept ≡ unread }
    ensures low { result ≤ pass.old.shape.pages }
    ensures stepped { Stepped pass.old pass.new
        (record pass.old {
          swept = swept_read id index result;
          sweeps = if result == 0 then advanced id pass.old.sweeps else pass.old.sweeps;
        }) [] none_noted }
{
    let seat = &mut pass.seat;
    let place = pool.shape.map_place(id.slot, index);
    load_as::<Brand>(pool, seat, place, Step::SweepsMap(id, index))
}

/// Makes the map word of this part 0, which named the page.
pub fn step_unmap(pool: &Pool, pass: &mut Pass, id: ArenaId, index: u32, page: u32)
    requires of { IsOf pool.now pass.old }
    requires sweep { passed_of pass.old.sweeps id ≡ Some index }
    requires low { index < pool.now.shape.reach }
    requires named { pass.old.swept ≡ named id index page }
    ensures { Stepped pass.old pass.new (record pass.old { swept = wiping id index page 0 }) [] none_noted }
{
    let seat = &mut pass.seat;
    let place = pool.shape.map_place(id.slot, index);
    store_as::<Brand>(pool, seat, place, 0, Step::Unmaps(id, index, page));
}

/// Makes the word of this index of the page 0, the next one that the sweep wipes. Nobody else uses the page.
pub fn step_wipe(pool: &Pool, pass: &mut Pass, id: ArenaId, index: u32, page: u32, word: u32)
    requires of { IsOf pool.now pass.old }
    requires sweep { passed_of pass.old.sweeps id ≡ Some index }
    requires low { index < pool.now.shape.reach }
    requires wiped { pass.old.swept ≡ wiping id index page word }
    requires word { word < pool.now.shape.page_words }
    ensures { Stepped pass.old pass.new (record pass.old { swept = wiping id index page (word + 1) }) [] none_noted }
{
    let seat = &mut pass.seat;
    let place = pool.shape.page_place(page, word);
    store_as::<Brand>(pool, seat, place, 0, Step::Wipes(id, index, page, word));
}

/// Makes the bit of a page 1 whose first words the sweep has wiped, so many of them: its loan is taken back, and it can
/// be claimed from this step on. Words without a given byte are 0 as they stand.
pub fn step_return_page(
    pool: &Pool,
    pass: &mut Pass,
    id: ArenaId,
    index: u32,
    page: u32,
    words: u32,
)
    requires of { IsOf pool.now pass.old }
    requires sweep { passed_of pass.old.sweeps id ≡ Some index }
    requires low { index < pool.now.shape.reach }
    requires wiped { pass.old.swept ≡ wiping id index page words }
    requires all { AreAllGiven pass.old id index words }
    ensures { Stepped pass.old pass.new (record pass.old { swept = unread; sweeps = advanced id pass.old.sweeps })
        (entry_of pass.old.caller (machine.Back page) machine.Fine ∷ []) none_noted }
{
    let _ = (index, words);
    let seat = &mut pass.seat;
    let place = pool.shape.page_bits_place(page / 64);
    let bits = bit(page % 64);
    or_as::<Brand>(pool, seat, place, bits, Step::ReturnsPage(id, page));
}

/// Makes the count of bytes 0 that the arena has given. None of its parts has a page any more.
pub fn step_reset_given(pool: &Pool, pass: &mut Pass, id: ArenaId)
    requires of { IsOf pool.now pass.old }
    requires sweep { passed_of pass.old.sweeps id ≡ Some pool.now.shape.reach }
    requires idle { pass.old.swept ≡ unread }
    ensures { Stepped pass.old pass.new (record pass.old { sweeps = advanced id pass.old.sweeps }) [] none_noted }
{
    let seat = &mut pass.seat;
    let place = pool.shape.given_place(id.slot);
    store_as::<Brand>(pool, seat, place, 0, Step::ResetsGiven(id));
}

/// The next arena of the slot has the next generation; there is none after
/// the last, else the pass has the slot in its hand.
pub fn step_retire(pool: &Pool, pass: &mut Pass, id: ArenaId)
    requires of { IsOf pool.now pass.old }
    requires none { pass.old.hand ≡ nothing }
    requires sweep { passed_of pass.old.sweeps id ≡ Some (pool.now.shape.reach + 1) }
    requires idle { pass.old.swept ≡ unread }
    ensures { Stepped pass.old pass.new
        (record pass.old {
          sweeps = dropped id pass.old.sweeps;
          hand = hand_retired (id.generation + 1 == pass.old.shape.generations) id.slot pass.old.hand;
        })
        [] none_noted }
{
    let seat = &mut pass.seat;
    let place = pool.shape.session_place(id.slot);
    let free = retired_word(id.generation, pool.shape.generations);
    store_as::<Brand>(pool, seat, place, free, Step::Retires(id));
}

/// Makes the bit of a slot 1 that the pass retired: it can be taken from this step on.
pub fn step_give_slot(pool: &Pool, pass: &mut Pass, slot: u32)
    requires of { IsOf pool.now pass.old }
    requires retired { pass.old.hand ≡ retired slot }
    ensures { Stepped pass.old pass.new (record pass.old { hand = nothing }) [] none_noted }
{
    let seat = &mut pass.seat;
    let place = pool.shape.slot_bits_place();
    let bits = bit(slot);
    or_as::<Brand>(pool, seat, place, bits, Step::GivesSlot(slot));
}
