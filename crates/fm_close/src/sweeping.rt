ghost use Rattle.std.specs.Prelude.{◌≡◌, ◌⊎◌, ◌<◌, ◌≤◌, ◌+◌, ◌*◌, [], Some};
ghost use Rattle.fm_rule_facts.specs.Parts.{unread, wiping};
ghost use Rattle.fm_rule_facts.specs.Views.{IsSound, given_of};
ghost use Rattle.fm_rule_facts.specs.Closes.{passed_of};
ghost use Rattle.fm_rule.specs.Passes.{IsOf};
ghost use Rattle.fm_close.specs.Learnt.{AfterSweep, CanSweep};
ghost use Rattle.fm_close.specs.Sweeps.{SweepsOn, SweepsPart, PartTaken, PartsTaken};

use crate::shutting::Shutting;
use fm_base::ArenaId;
use fm_rule::{
    Pass, Pool, step_give_slot, step_reset_given, step_retire, step_return_page, step_sweep_given,
    step_sweep_map, step_unmap, step_wipe,
};

/// Gives back the pages and the slot of an arena that has ended.
///
/// Page after page, the words that have a given byte become 0 and the page free; then the count of given bytes is 0. From
/// then on the slot can be taken for an arena of the next generation; where there is none, the slot isn't used again.
pub fn sweep(pool: &Pool, pass: &mut Pass, s: Shutting)
    requires { CanSweep pool.now pass.old s }
    ensures { AfterSweep pool.now pass.old pass.new s.arena }
{
    let Shutting {
        arena,
        next: _,
        ended: _,
        maker: _,
    } = s;
    let given = step_sweep_given(pool, pass, arena);
    take_pages_back(pool, pass, arena, given);
    step_reset_given(pool, pass, arena);
    // No map word names a page, and the count is 0, before the slot is anybody's.
    step_retire(pool, pass, arena);
    if arena.generation + 1 == pool.shape().generations {
        return;
    }
    step_give_slot(pool, pass, arena.slot);
}

/// Takes back all pages of an arena that has ended, and gave so many bytes.
fn take_pages_back(pool: &Pool, pass: &mut Pass, id: ArenaId, given: u64)
    requires of { IsOf pool.now pass.old }
    requires sound { IsSound pass.old }
    requires begun { passed_of pass.old.sweeps id ≡ Some 0 }
    requires idle { pass.old.swept ≡ unread }
    requires gave { given_of pass.old id ≡ given }
    ensures { PartsTaken pass.old pass.new id pool.now.shape.reach }
{
    for part in 0..pool.shape().reach {
        take_back(pool, pass, id, part, given);
    }
}

/// Takes back the page of this part of the arena, where it has one.
fn take_back(pool: &Pool, pass: &mut Pass, id: ArenaId, part: u32, given: u64)
    requires part { SweepsPart pool.now pass.old id part }
    requires idle { pass.old.swept ≡ unread }
    requires gave { given_of pass.old id ≡ given }
    ensures { PartTaken pass.old pass.new id }
{
    let word = step_sweep_map(pool, pass, id, part);
    if word == 0 {
        return;
    }
    let page = (word - 1) as u32;
    step_unmap(pool, pass, id, part, page);
    let words = given_words(given, part, pool.shape().page_words);
    // Another arena can have the page as soon as its bit is 1, and finds all its words 0.
    wipe(pool, pass, id, part, page, words);
    step_return_page(pool, pass, id, part, page, words);
}

/// How many words of the part have a given byte, where the arena gave so many: they are the first of the page's `size` words.
fn given_words(given: u64, part: u32, size: u32) -> u32
    ensures few { result ≤ size }
    ensures all { (result ≡ size) ⊎ (given ≤ 8 * (part * size + result)) }
    ensures none_else { (result ≡ 0) ⊎ (8 * (part * size + result) < given + 8) }
{
    let before = u64::from(part) * u64::from(size);
    let words = given.div_ceil(8).saturating_sub(before);
    words.min(u64::from(size)) as u32
}

/// Makes the first words of the page 0, so many of them.
fn wipe(pool: &Pool, pass: &mut Pass, id: ArenaId, part: u32, page: u32, words: u32)
    requires part { SweepsPart pool.now pass.old id part }
    requires begun { pass.old.swept ≡ wiping id part page 0 }
    requires few { words ≤ pool.now.shape.page_words }
    ensures { SweepsOn pass.old pass.new [] (wiping id part page words) pass.old.sweeps }
{
    for word in 0..words {
        step_wipe(pool, pass, id, part, page, word);
    }
}
