//! Numbers are taken by their bit, and given back with their next term.
#![tactic(auto, using(crate::proofs::Stepping::step_rules), unfolding(fm_rule_facts::specs::Steps::part))]

ghost use Rattle.std.specs.Prelude.{◌≡◌, ◌<◌, ◌≤◌, []};
ghost use Rattle.fm_base.specs.Finds.{TakesNumber as Taking};
ghost use Rattle.fm_rule_facts.specs.Hands.{no_number, number_taken, number_learnt, number_left, number_joined, number_taken_by, takes, last_term};
ghost use Rattle.fm_rule_facts.specs.Steps.{Stepped, none_noted, note_of, number_at};
ghost use Rattle.fm_rule.specs.Passes.{IsOf};

use crate::acts::{exchange_as, load_as, or_as, store_as};
use crate::pass::Pass;
use crate::pool::Pool;
use crate::words::bit;
use fm_base::Caller;
use fm_rule_facts::Step;
use fm_words::without_bit;
use std::marker::Brand;

/// Answers a word of number bits. Where it is the expected one, and the number's bit is 1 in it, the bit is 0 from this
/// step on, and the pass has the number in its hand.
pub fn step_take_number(pool: &Pool, pass: &mut Pass, group: u32, expected: u64, bit: u32) -> u64
    requires of { IsOf pool.now pass.old }
    requires none { pass.old.number ≡ no_number }
    requires few { bit < 64 }
    requires fits { number_at group bit < pool.now.shape.passes }
    ensures { Stepped pass.old pass.new
        (record pass.old { number = number_taken_by (takes expected bit result) (number_at group bit) pass.old.number }) []
        (note_of (Taking group expected bit) result pass.old) }
{
    let seat = &mut pass.seat;
    let place = pool.shape.number_bits_place(group);
    let next = without_bit(expected, bit);
    let step = Step::TakesNumber(group, expected, bit);
    exchange_as::<Brand>(pool, seat, place, expected, next, step)
}

/// Answers the term of the number that the pass took.
pub fn step_learn_term(pool: &Pool, pass: &mut Pass, number: u32) -> u64
    requires of { IsOf pool.now pass.old }
    requires taken { pass.old.number ≡ number_taken number }
    requires fits { number < pool.now.shape.passes }
    ensures stepped { Stepped pass.old pass.new
        (record pass.old { number = number_learnt number result }) [] none_noted }
    ensures term { result ≤ last_term }
{
    let seat = &mut pass.seat;
    let place = pool.shape.term_place(number);
    load_as::<Brand>(pool, seat, place, Step::LearnsTerm(number))
}

/// Raises the term of a gathered caller's number: nobody has this caller again.
pub fn step_raise_term(pool: &Pool, pass: &mut Pass, caller: Caller)
    requires of { IsOf pool.now pass.old }
    requires joined { pass.old.number ≡ number_joined caller }
    requires fits { caller.number < pool.now.shape.passes }
    ensures { Stepped pass.old pass.new (record pass.old { number = number_left caller.number }) [] none_noted }
{
    let place = pool.shape.term_place(caller.number);
    let next = u64::from(caller.term) + 1;
    store_as::<Brand>(
        pool,
        &mut pass.seat,
        place,
        next,
        Step::RaisesTerm(caller.number),
    );
}

/// Makes the number's bit 1: it can be drawn from this step on.
pub fn step_give_number(pool: &Pool, pass: &mut Pass, number: u32)
    requires of { IsOf pool.now pass.old }
    requires left { pass.old.number ≡ number_left number }
    requires fits { number < pool.now.shape.passes }
    ensures { Stepped pass.old pass.new (record pass.old { number = no_number }) [] none_noted }
{
    let place = pool.shape.number_bits_place(number / 64);
    let one = bit(number % 64);
    or_as::<Brand>(pool, &mut pass.seat, place, one, Step::GivesNumber(number));
}
