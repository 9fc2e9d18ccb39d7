ghost use Rattle.std.specs.Prelude.{◌≡◌, None, IfSome};
ghost use Rattle.std.specs.Option.{option_map};
ghost use Rattle.fm_arena.specs.Handles.{HasHandle, CanGiveBack};
ghost use Rattle.fm_arena.specs.Learnt.{CanUnhold};
ghost use Rattle.fm_rule_facts.specs.Holds.{released};
ghost use Rattle.fm_rule_facts.specs.Views.{IsKnown};
ghost use Rattle.fm_script_lines.specs.Calls.{On, Holds, Unholds, TakesAgain, GivesBack};
ghost use Rattle.fm_script_lines.specs.Outcomes.{plain};
ghost use Rattle.fm_script_lines.specs.Runs.{RanLine, RanWith};
ghost use Rattle.fm_script_lines.specs.Standings.{arena_of, standing_as};

use crate::bound::Bound;
use crate::outcome::LineOutcome;
use crate::reply::Reply;
use crate::standing::Standing;
use fm_arena::{AutoHandle, Shared};
use fm_close::GaveBack;
use fm_gate::Hold;
use std::sync::Wait;

/// `hold ARENA NAME`
pub(crate) fn hold<R: Wait>(rt: &R, m: &mut Shared, bound: Bound) -> LineOutcome
    requires outside { m.old.inside ≡ None }
    requires known { IfSome (arena_of (standing_as bound)) (IsKnown m.old) }
    ensures { RanLine m.old m.new (On (arena_of (standing_as bound)) (Holds m.old.caller)) result }
{
    let Some(arena) = bound.arena() else {
        return LineOutcome::plain(Reply::Skipped);
    };
    match m.hold(rt, arena) {
        Ok(hold) => LineOutcome {
            reply: Reply::Fine,
            made: Standing::Hold(Some(hold)),
        },
        Err(refusal) => LineOutcome::plain(Reply::Refused(refusal)),
    }
}

/// Gives the hold back.
pub(crate) fn end_hold(m: &mut Shared, hold: Hold)
    requires outside { m.old.inside ≡ None }
    requires can { CanUnhold m.old hold }
    ensures { RanWith m.old m.new (released hold.arena m.old.holds) m.old.handles
        (Unholds m.old.caller hold.arena (plain Reply.Fine)) }
{
    m.unhold(hold);
}

/// `again HANDLE NAME`
pub(crate) fn again<R: Wait>(rt: &R, m: &mut Shared, handle: Option<&AutoHandle>) -> LineOutcome
    requires outside { m.old.inside ≡ None }
    requires has { IfSome handle (λ h. HasHandle m.old h.now) }
    ensures { RanLine m.old m.new (On (option_map (λ h. h.now.arena) handle.entry)
        (TakesAgain m.old.caller)) result }
{
    let Some(handle) = handle else {
        return LineOutcome::plain(Reply::Skipped);
    };
    match handle.again(rt, m) {
        Ok(other) => LineOutcome {
            reply: Reply::Fine,
            made: Standing::Handle(Some(other)),
        },
        Err(refusal) => LineOutcome::plain(Reply::Refused(refusal)),
    }
}

/// Gives the handle back.
pub(crate) fn end_handle<R: Wait>(rt: &R, m: &mut Shared, handle: AutoHandle) -> Reply
    requires { CanGiveBack m.old handle }
    ensures { RanWith m.old m.new m.old.holds (released handle.arena m.old.handles)
        (GivesBack m.old.caller handle.arena (plain result)) }
{
    match handle.give_back(rt, m) {
        GaveBack::Kept => Reply::Kept,
        GaveBack::Ended => Reply::Ended,
    }
}
