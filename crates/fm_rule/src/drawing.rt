//! Passes are drawn: a free number is taken, its next caller is counted, and split off with what the drawer has seen.
ghost use Rattle.std.specs.Prelude.{◌≡◌, ◌<◌, [], true, false, IfOk, IfErr, IfSome};
ghost use Rattle.fm_rule_facts.specs.Steps as steps;
ghost use Rattle.fm_rule_facts.specs.Steps.{CanDraw, Stepped, draws, note_draw};
ghost use Rattle.fm_rule_facts.specs.Hands.{drawn_by, number_after, number_drawn, number_learnt, no_number};
ghost use Rattle.fm_base.specs.declared.refusal.Refusal.TheVariants.{NoPass};
ghost use Rattle.fm_rule.specs.Draws.{cut_from, Drawn, NoneDrawn, Takes, Tried, FoundIn, Counts};
ghost use Rattle.fm_rule_facts.specs.Moves.{LearnsCount};
ghost use Rattle.fm_rule_facts.specs.Views.{IsSound};
ghost use Rattle.fm_rule.specs.Passes.{IsOf};

use crate::acts::exchange_as;
use crate::numbering::{step_give_number, step_learn_term, step_take_number};
use crate::pass::{NO_ARENA, NO_PART, Pass};
use crate::pool::Pool;
use crate::seen::Seen;
use atomic_table::Split;
use fm_base::{Caller, Refusal};
use fm_rule_facts::Step;
use fm_words::without_bit;
use std::marker::Brand;
use std::sync::Wait;

/// Answers how many draws were made. Where they are as many as expected, and one more can be counted, the pass has the next
/// caller of its number in its hand from this step on. Without a number in its hand it only looks, and expects 0, since
/// every pool has made a draw; a pass that has as many callers as draws were found is known to be whole then.
#[tactic(auto, using(crate::proofs::Stepping::step_rules), unfolding(fm_rule_facts::specs::Steps::part))]
pub fn step_draw(pool: &Pool, pass: &mut Pass, expected: u64) -> u64
    requires of { IsOf pool.now pass.old }
    requires can { CanDraw pass.old expected }
    ensures stepped { Stepped pass.old pass.new
        (draws (drawn_by pass.old.number expected result) (number_after pass.old.number expected result) expected result pass.old) []
        (note_draw expected result pass.old) }
    ensures count { LearnsCount pass.old result }
{
    let seat = &mut pass.seat;
    let place = pool.shape.draw_place();
    let next = draw_next(expected);
    exchange_as::<Brand>(pool, seat, place, expected, next, Step::Draws(expected))
}

/// The count of draws after a draw that finds so many: one more, where that can be counted.
fn draw_next(drawn: u64) -> u64
    ensures { result ≡ steps.draw_next drawn }
{
    if drawn == u64::MAX { drawn } else { drawn + 1 }
}

/// A pass is cut from the one that drew its number.
pub struct SplitOff;

impl Split<Seen> for SplitOff {
    ghost use Rattle.fm_rule_facts.specs.Splits.{drawn_left, drawn_right};

    ghost left = { drawn_left };

    ghost right = { drawn_right };
}

impl Pool {
    /// A pass with a free number and that number's term, which has seen what the giver has.
    ///
    /// Refused: `NoPass`, where every number was found taken, or no draw can be counted any more.
    pub fn draw<R: Wait>(&self, rt: &R, giver: &mut Pass) -> Result<Pass, Refusal>
        requires of { IsOf self.now giver.old }
        requires none { giver.old.number ≡ no_number }
        ensures drawn { IfOk result (λ pass. Drawn giver.old giver.new pass) }
        ensures no_pass { IfErr result (λ e. (e ≡ NoPass) × NoneDrawn giver.old giver.new) }
    {
        let number = self.take_number(rt, giver)?;
        let term = step_learn_term(self, giver, number) as u32;
        let caller = Caller { number, term };
        self.count_draw(rt, giver, caller)?;
        Ok(self.split_off(giver, caller))
    }

    /// Tries until it took a free number, or found none in any group.
    fn take_number<R: Wait>(&self, rt: &R, giver: &mut Pass) -> Result<u32, Refusal>
        requires of { IsOf self.now giver.old }
        requires none { giver.old.number ≡ no_number }
        ensures takes { IfOk result (λ number. Takes self.now giver.old giver.new number) }
        ensures no_pass { IfErr result (λ e. (e ≡ NoPass) × NoneDrawn giver.old giver.new) }
    {
        for _ in rt.forever() {
            match self.guess_number() {
                Some(number) => {
                    if self.try_number(giver, number) {
                        return Ok(number);
                    }
                }
                None => {
                    if self.finds_none(giver) {
                        return Err(Refusal::NoPass);
                    }
                }
            }
        }
        unreachable!()
    }

    /// Whether it took the number.
    fn try_number(&self, giver: &mut Pass, number: u32) -> bool
        requires of { IsOf self.now giver.old }
        requires none { giver.old.number ≡ no_number }
        requires low { number < self.now.shape.passes }
        ensures { Tried self.now giver.old giver.new number result }
    {
        let group = number / 64;
        let bit = number % 64;
        let word = self.peek(self.shape.number_bits_place(group));
        let found = step_take_number(self, giver, group, word, bit);
        found == word && without_bit(word, bit) != word
    }

    /// A guess at a free number, the least one that seems free. It tells nothing.
    fn guess_number(&self) -> Option<u32>
        ensures { IfSome result (λ number. number < self.now.shape.passes) }
    {
        for number in 0..self.shape.passes {
            if self.seems_free(number) {
                return Some(number);
            }
        }
        None
    }

    /// Whether a load of its word shows the number free. It tells nothing.
    fn seems_free(&self, number: u32) -> bool
        requires { number < self.now.shape.passes }
    {
        let word = self.peek(self.shape.number_bits_place(number / 64));
        without_bit(word, number % 64) != word
    }

    /// Whether the word of each group was found 0.
    fn finds_none(&self, giver: &mut Pass) -> bool
        requires of { IsOf self.now giver.old }
        requires none { giver.old.number ≡ no_number }
        ensures { FoundIn self.now giver.old giver.new result }
    {
        for group in 0..self.shape.groups() {
            if step_take_number(self, giver, group, 0, 0) != 0 {
                return false;
            }
        }
        true
    }

    /// Tries until no other pass drew between its look and its exchange. Where no draw can be counted any more, the number
    /// goes back.
    fn count_draw<R: Wait>(&self, rt: &R, giver: &mut Pass, caller: Caller) -> Result<(), Refusal>
        requires of { IsOf self.now giver.old }
        requires learnt { giver.old.number ≡ number_learnt caller.number caller.term }
        requires low { caller.number < self.now.shape.passes }
        ensures drew { IfOk result (λ u. Counts giver.old giver.new caller) }
        ensures no_pass { IfErr result (λ e. (e ≡ NoPass) × NoneDrawn giver.old giver.new) }
    {
        let mut expected = self.guess_draws();
        for _ in rt.forever() {
            let found = step_draw(self, giver, expected);
            if found == expected {
                if found == u64::MAX {
                    step_give_number(self, giver, caller.number);
                    return Err(Refusal::NoPass);
                }
                return Ok(());
            }
            expected = found;
        }
        unreachable!()
    }

    /// A guess at the count of draws. The first pass is one.
    fn guess_draws(&self) -> u64
        ensures { 0 < result }
    {
        let draws = self.peek(self.shape.draw_place());
        if draws == 0 { 1 } else { draws }
    }

    /// The pass of the caller that the giver has in its hand.
    fn split_off(&self, giver: &mut Pass, caller: Caller) -> Pass
        requires of { IsOf self.now giver.old }
        requires drawn { giver.old.number ≡ number_drawn caller }
        requires drew { giver.old.whole ≡ false }
        ensures giver { giver.new ≡ record giver.old { number = no_number } }
        ensures pass { result ≡ cut_from giver.old caller }
        ensures sound { IsSound result }
    {
        let seat = self.table.shared.split_seat::<SplitOff>(&mut giver.seat);
        Pass {
            seat,
            caller,
            is_inside: false,
            current: NO_ARENA,
            part: NO_PART,
            other: NO_PART,
            gathered: 0,
        }
    }
}
