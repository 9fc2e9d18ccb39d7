ghost use Rattle.fm_base.specs.Arenas.{MayUse};
ghost use Rattle.fm_rule_facts.specs.Views.{IsKnown};
ghost use Rattle.fm_rule.specs.Passes.{IsOf};
ghost use Rattle.fm_gate.specs.Needs.{CanVisit, CanUnhold};
ghost use Rattle.fm_gate.specs.Learnt.{AfterHold, AfterTake, AfterUnhold};

use crate::held::Hold;
use fm_base::{ArenaId, Kind, Refusal};
use fm_pages::Maker;
use fm_rule::{MOST_HOLDS, Pass, Pool, alive_holds, step_hold, step_unhold};
use std::sync::Wait;

/// Holds the arena: until the hold is spent nobody can shut it.
///
/// Refused, in this order: `Unsupported`, `WrongThread`, `Closed`, `TooManyHolds`. A refused call changes nothing.
pub fn hold<R: Wait>(rt: &R, pool: &Pool, pass: &mut Pass, id: ArenaId) -> Result<Hold, Refusal>
    requires { CanVisit pool.now pass.old id }
    ensures { AfterHold pool.now pass.old pass.new id result }
{
    let caller = pass.caller();
    // An automatic arena is held by handles.
    if let Kind::Automatic = id.kind {
        return Err(Refusal::Unsupported);
    }
    if !id.may_be_used_by(caller) {
        return Err(Refusal::WrongThread);
    }
    let word = take(rt, pool, pass, id);
    match alive_holds(id, word) {
        None => Err(Refusal::Closed),
        Some(holds) => {
            if holds == MOST_HOLDS {
                return Err(Refusal::TooManyHolds);
            }
            Ok(Hold {
                arena: id,
                maker: Maker::of(pool, pass),
            })
        }
    }
}

/// Takes a hold of the arena, or a handle of an automatic one, where it is alive with room for one more. Answers the
/// session word that it found.
///
/// It tries until no other pass changed the session between its look and its exchange.
pub(crate) fn take<R: Wait>(rt: &R, pool: &Pool, pass: &mut Pass, id: ArenaId) -> u64
    requires of { IsOf pool.now pass.old }
    requires known { IsKnown pass.old id }
    requires may { MayUse id pass.old.caller }
    ensures { AfterTake pass.old pass.new id result }
{
    let mut word = pool.guess_session(id.slot);
    for _ in rt.forever() {
        let found = step_hold(pool, pass, id, word);
        if found == word {
            return word;
        }
        word = found;
    }
    unreachable!()
}

/// Spends a hold that the pass took.
pub fn unhold(pool: &Pool, pass: &mut Pass, hold: Hold)
    requires { CanUnhold pool.now pass.old hold }
    ensures { AfterUnhold pool.now pass.old pass.new hold.arena }
{
    let Hold { arena, maker: _ } = hold;
    step_unhold(pool, pass, arena);
}
