#![tactic(auto, using(crate::proofs::Stepping::step_rules), unfolding(fm_rule_facts::specs::Steps::part))]

ghost use Rattle.std.specs.Prelude.{◌≡◌, ◌≢◌, ◌==◌, ◌∷◌, [], None};
ghost use Rattle.fm_base.specs.Arenas.{MayUse};
ghost use Rattle.fm_base.specs.Calls as machine;
ghost use Rattle.fm_base.specs.Calls.{entry_of};
ghost use Rattle.fm_rule_facts.specs.Views.{In, IsKnown};
ghost use Rattle.fm_rule_facts.specs.Words.{alive_holds, hold_found};
ghost use Rattle.fm_rule_facts.specs.Holds.{grips, with_grips, holds_after, released};
ghost use Rattle.fm_rule_facts.specs.Handles.{giving, given_back, giving_entries};
ghost use Rattle.fm_rule_facts.specs.Steps.{Stepped, none_noted, where_found};
ghost use Rattle.fm_rule.specs.Passes.{IsOf};

use crate::acts::{exchange_as, subtract_as};
use crate::pass::Pass;
use crate::pool::Pool;
use crate::words::{back_word, held_word};
use fm_base::{ArenaId, Kind};
use fm_rule_facts::Step;
use std::marker::Brand;

/// Answers the arena's session word. Where it is the expected one, and shows the arena alive with fewer holds than the
/// most, the pass has a hold more: a handle, where the arena is automatic.
pub fn step_hold(pool: &Pool, pass: &mut Pass, id: ArenaId, word: u64) -> u64
    requires of { IsOf pool.now pass.old }
    requires known { IsKnown pass.old id }
    requires may { MayUse id pass.old.caller }
    ensures alive { In id (grips id pass.old) → alive_holds id result ≢ None }
    ensures stepped { Stepped pass.old pass.new
        (with_grips id (holds_after (result == word) id (hold_found (alive_holds id word))
        (grips id pass.old)) pass.old)
        (where_found (result == word)
        (entry_of pass.old.caller (machine.Hold id) (hold_found (alive_holds id word)) ∷ [])) none_noted }
{
    let seat = &mut pass.seat;
    let place = pool.shape.session_place(id.slot);
    let next = held_word(id, word);
    exchange_as::<Brand>(pool, seat, place, word, next, Step::Holds(id, word))
}

/// Drops a hold of the arena. An arena that is held is alive.
pub fn step_unhold(pool: &Pool, pass: &mut Pass, id: ArenaId)
    requires of { IsOf pool.now pass.old }
    requires known { IsKnown pass.old id }
    requires held { In id pass.old.holds }
    requires by_hand { id.kind ≢ Kind.Automatic }
    ensures { Stepped pass.old pass.new (record pass.old { holds = released id pass.old.holds })
        (entry_of pass.old.caller (machine.Unhold id) machine.Fine ∷ []) none_noted }
{
    let seat = &mut pass.seat;
    let place = pool.shape.session_place(id.slot);
    subtract_as::<Brand>(pool, seat, place, 1, Step::Unholds(id));
}

/// Answers the session word of an automatic arena. Where it is the expected one, the pass gives back a handle: the word
/// counts a hold less, or where it counts none the arena is Closing from this step on. Then a close is begun, which has
/// visited no mark.
pub fn step_back(pool: &Pool, pass: &mut Pass, id: ArenaId, word: u64) -> u64
    requires of { IsOf pool.now pass.old }
    requires known { IsKnown pass.old id }
    requires handle { In id pass.old.handles }
    requires automatic { id.kind ≡ Kind.Automatic }
    ensures alive { alive_holds id result ≢ None }
    ensures stepped { Stepped pass.old pass.new (given_back id (giving (result == word) (alive_holds id word)) pass.old)
        (giving_entries id (giving (result == word) (alive_holds id word)) pass.old.caller) none_noted }
{
    let seat = &mut pass.seat;
    let place = pool.shape.session_place(id.slot);
    let next = back_word(id, word);
    exchange_as::<Brand>(pool, seat, place, word, next, Step::Backs(id, word))
}
