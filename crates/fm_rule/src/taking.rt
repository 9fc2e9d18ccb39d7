#![tactic(auto, using(crate::proofs::Stepping::step_rules), unfolding(fm_rule_facts::specs::Steps::part))]

ghost use Rattle.std.specs.Prelude.{◌≡◌, ◌<◌, ◌/◌, ◌^◌, []};
ghost use Rattle.fm_base.specs.Finds.{TakesSlot as Taking};
ghost use Rattle.fm_rule_facts.specs.Hands.{nothing, taken, learnt, takes, hand_taken};
ghost use Rattle.fm_rule_facts.specs.Steps.{Stepped, none_noted, note_of};
ghost use Rattle.fm_rule_facts.specs.Moves.{LearnsSlots};
ghost use Rattle.fm_rule.specs.Passes.{IsOf};

use crate::acts::{exchange_as, load_as};
use crate::pass::Pass;
use crate::pool::Pool;
use fm_rule_facts::Step;
use fm_words::without_bit;
use std::marker::Brand;

/// Answers the word of slot bits. Where it is the expected one, and the slot's bit is 1 in it, the bit is 0 from this step
/// on, and the pass has the slot in its hand.
pub fn step_take_slot(pool: &Pool, pass: &mut Pass, expected: u64, bit: u32) -> u64
    requires of { IsOf pool.now pass.old }
    requires none { pass.old.hand ≡ nothing }
    requires low { bit < pool.now.shape.slots }
    ensures stepped { Stepped pass.old pass.new
        (record pass.old { hand = hand_taken (takes expected bit result) bit pass.old.hand }) []
        (note_of (Taking expected bit) result pass.old) }
    ensures slots { LearnsSlots pass.old result }
{
    let seat = &mut pass.seat;
    let place = pool.shape.slot_bits_place();
    let next = without_bit(expected, bit);
    let step = Step::TakesSlot(expected, bit);
    exchange_as::<Brand>(pool, seat, place, expected, next, step)
}

/// Answers the session word of the slot that the pass took. The next arena of the slot has the generation in its high
/// 32 bits.
pub fn step_generation(pool: &Pool, pass: &mut Pass, slot: u32) -> u64
    requires of { IsOf pool.now pass.old }
    requires taken { pass.old.hand ≡ taken slot }
    ensures { Stepped pass.old pass.new (record pass.old { hand = learnt slot (result / 2 ^ 32) }) [] none_noted }
{
    let seat = &mut pass.seat;
    let place = pool.shape.session_place(slot);
    load_as::<Brand>(pool, seat, place, Step::LearnsGeneration(slot))
}
