ghost use Rattle.std.specs.Prelude.{◌≡◌, None, IfSome};
ghost use Rattle.fm_base.specs.Learnt.{AfterClose, CanVisit};
ghost use Rattle.fm_rule_calls.specs.Told.{view_of_pass};
ghost use Rattle.fm_rule_facts.specs.Views.{IsKnown};
ghost use Rattle.fm_script_lines.specs.Calls.{On, Opens, Asks, Closes};
ghost use Rattle.fm_script_lines.specs.Runs.{RanLine};
ghost use Rattle.fm_script_lines.specs.Slots.{SlotsTold};
ghost use Rattle.fm_script_lines.specs.Standings.{arena_of, standing_as};

use crate::bound::Bound;
use crate::outcome::LineOutcome;
use crate::reply::Reply;
use crate::standing::Standing;
use fm_arena::{AutoHandle, Shared};
use fm_base::{ArenaId, Kind, Memory, OrRefused};
use fm_script_text::CloseBy;
use std::alloc::AllocGlobal;
use std::random::RandomSource;
use std::sync::Wait;

/// `open NAME KIND`
pub(crate) fn open<R: Wait>(rt: &R, m: &mut Shared, kind: Kind) -> LineOutcome
    requires { m.old.inside ≡ None }
    ensures ran { RanLine m.old m.new (Opens m.old.caller kind) result }
    ensures slots { SlotsTold m.old m.new result.reply }
{
    match kind {
        Kind::Automatic => open_automatic(rt, m),
        Kind::Global | Kind::Confined | Kind::Shared => open_by_hand(rt, m, kind),
    }
}

/// Of an automatic arena.
fn open_automatic<R: Wait>(rt: &R, m: &mut Shared) -> LineOutcome
    requires { m.old.inside ≡ None }
    ensures ran { RanLine m.old m.new (Opens m.old.caller Kind.Automatic) result }
    ensures slots { SlotsTold m.old m.new result.reply }
{
    match AutoHandle::start(rt, m) {
        Ok(handle) => LineOutcome {
            reply: Reply::Fine,
            made: Standing::Automatic(handle.arena(), Some(handle)),
        },
        Err(refusal) => LineOutcome::plain(Reply::Refused(refusal)),
    }
}

/// Of an arena of another kind.
fn open_by_hand<R: Wait>(rt: &R, m: &mut Shared, kind: Kind) -> LineOutcome
    requires outside { m.old.inside ≡ None }
    requires by_hand { ¬ (kind ≡ Kind.Automatic) }
    ensures ran { RanLine m.old m.new (Opens m.old.caller kind) result }
    ensures slots { SlotsTold m.old m.new result.reply }
{
    match m.open_arena(rt, kind) {
        Ok(arena) => LineOutcome {
            reply: Reply::Fine,
            made: Standing::Arena(arena),
        },
        Err(refusal) => LineOutcome::plain(Reply::Refused(refusal)),
    }
}

/// `alive ARENA`
pub(crate) fn ask(m: &mut Shared, bound: Bound) -> LineOutcome
    requires outside { m.old.inside ≡ None }
    requires known { IfSome (arena_of (standing_as bound)) (IsKnown m.old) }
    ensures { RanLine m.old m.new (On (arena_of (standing_as bound)) (Asks m.old.caller)) result }
{
    let Some(arena) = bound.arena() else {
        return LineOutcome::plain(Reply::Skipped);
    };
    match m.is_alive(arena) {
        Ok(alive) => LineOutcome::plain(Reply::Truth(alive)),
        Err(refusal) => LineOutcome::plain(Reply::Refused(refusal)),
    }
}

/// `close ARENA`, and `closepoll ARENA`
pub(crate) fn close<R: Wait + RandomSource + AllocGlobal>(
    rt: &R,
    m: &mut Shared,
    bound: Bound,
    by: CloseBy,
) -> LineOutcome
    requires outside { m.old.inside ≡ None }
    requires known { IfSome (arena_of (standing_as bound)) (IsKnown m.old) }
    ensures { RanLine m.old m.new (On (arena_of (standing_as bound)) (Closes m.old.caller)) result }
{
    let Some(arena) = bound.arena() else {
        return LineOutcome::plain(Reply::Skipped);
    };
    match close_by(rt, m, arena, by) {
        Ok(_) => LineOutcome::plain(Reply::Fine),
        Err(refusal) => LineOutcome::plain(Reply::Refused(refusal)),
    }
}

/// Closes the arena so.
fn close_by<R: Wait + RandomSource + AllocGlobal>(
    rt: &R,
    m: &mut Shared,
    arena: ArenaId,
    by: CloseBy,
) -> OrRefused<()>
    requires { CanVisit (view_of_pass m.old) arena }
    ensures { AfterClose (view_of_pass m.old) (view_of_pass m.new) arena result }
{
    match by {
        CloseBy::Visits => m.close(rt, arena),
        CloseBy::Polls => m.close_by_poll(rt, arena),
    }
}
