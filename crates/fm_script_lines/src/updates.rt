ghost use Rattle.std.specs.Prelude.{◌≡◌, None, IfSome, IfOk, OnErr};
ghost use Rattle.fm_rule_calls.specs.Told.{view_of_pass};
ghost use Rattle.fm_script_text.specs.Syntax.{IsOfKind};
ghost use Rattle.fm_segment.specs.Access.{IsKnown};
ghost use Rattle.fm_script_lines.specs.Calls.{On, Adds, Exchanges};
ghost use Rattle.fm_script_lines.specs.Runs.{RanLine};
ghost use Rattle.fm_script_lines.specs.Standings.{segment_of, standing_as};

use crate::bound::Bound;
use crate::outcome::LineOutcome;
use crate::reply::Reply;
use crate::values::{handle_of, value_of};
use fm_arena::Shared;
use fm_script_text::Cell;
use std::alloc::{AllocError, Global};
use std::sync::Wait;

/// `add SEG TYPE OFFSET VALUE`. Memory may be wanting before the call.
pub(crate) fn add<R: Wait>(
    rt: &R,
    alloc: Global,
    m: &mut Shared,
    bound: Bound,
    cell: &Cell,
    value: i64,
) -> Result<LineOutcome, AllocError>
    requires outside { m.old.inside ≡ None }
    requires known { IfSome (segment_of (standing_as bound)) (IsKnown (view_of_pass m.old)) }
    requires of_kind { IsOfKind cell.now.kind value }
    ensures ran { IfOk result (RanLine m.old m.new (On (segment_of (standing_as bound))
        (Adds m.old.caller cell.now value))) }
    ensures kept { OnErr result (m.new ≡ m.old) }
{
    let Some(segment) = bound.segment() else {
        return Ok(LineOutcome::plain(Reply::Skipped));
    };
    let handle = handle_of(alloc, cell)?;
    let value = value_of(cell.kind, value);
    match handle.get_and_add(rt, m, &segment, cell.offset, &[], value) {
        Ok(found) => Ok(LineOutcome::plain(Reply::Number(found.number()))),
        Err(refusal) => Ok(LineOutcome::plain(Reply::Refused(refusal))),
    }
}

/// `cas SEG TYPE OFFSET OLD NEW`. Memory may be wanting before the call.
pub(crate) fn exchange<R: Wait>(
    rt: &R,
    alloc: Global,
    m: &mut Shared,
    bound: Bound,
    cell: &Cell,
    wanted: i64,
    value: i64,
) -> Result<LineOutcome, AllocError>
    requires outside { m.old.inside ≡ None }
    requires known { IfSome (segment_of (standing_as bound)) (IsKnown (view_of_pass m.old)) }
    requires old_kind { IsOfKind cell.now.kind wanted }
    requires new_kind { IsOfKind cell.now.kind value }
    ensures ran { IfOk result (RanLine m.old m.new (On (segment_of (standing_as bound))
        (Exchanges m.old.caller cell.now wanted value))) }
    ensures kept { OnErr result (m.new ≡ m.old) }
{
    let Some(segment) = bound.segment() else {
        return Ok(LineOutcome::plain(Reply::Skipped));
    };
    let handle = handle_of(alloc, cell)?;
    let wanted = value_of(cell.kind, wanted);
    let value = value_of(cell.kind, value);
    match handle.compare_and_exchange(rt, m, &segment, cell.offset, &[], wanted, value) {
        Ok(found) => Ok(LineOutcome::plain(Reply::Number(found.number()))),
        Err(refusal) => Ok(LineOutcome::plain(Reply::Refused(refusal))),
    }
}
