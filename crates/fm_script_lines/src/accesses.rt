ghost use Rattle.std.specs.Prelude.{◌≡◌, None, IfSome};
ghost use Rattle.fm_rule_calls.specs.Told.{view_of_pass};
ghost use Rattle.fm_script_text.specs.Syntax.{IsOfKind};
ghost use Rattle.fm_segment.specs.Access.{IsKnown};
ghost use Rattle.fm_script_lines.specs.Calls.{On, Gets, Sets};
ghost use Rattle.fm_script_lines.specs.Runs.{RanLine};
ghost use Rattle.fm_script_lines.specs.Standings.{segment_of, standing_as};

use crate::bound::Bound;
use crate::outcome::LineOutcome;
use crate::reply::Reply;
use crate::values::{layout_of, value_of};
use fm_arena::Shared;
use fm_script_text::Cell;
use std::sync::Wait;

/// `get SEG TYPE OFFSET`
pub(crate) fn get(m: &mut Shared, bound: Bound, cell: &Cell) -> LineOutcome
    requires outside { m.old.inside ≡ None }
    requires known { IfSome (segment_of (standing_as bound)) (IsKnown (view_of_pass m.old)) }
    ensures { RanLine m.old m.new (On (segment_of (standing_as bound))
        (Gets m.old.caller cell.now)) result }
{
    let Some(segment) = bound.segment() else {
        return LineOutcome::plain(Reply::Skipped);
    };
    match segment.get(m, &layout_of(cell), cell.offset) {
        Ok(value) => LineOutcome::plain(Reply::Number(value.number())),
        Err(refusal) => LineOutcome::plain(Reply::Refused(refusal)),
    }
}

/// `set SEG TYPE OFFSET VALUE`
pub(crate) fn set<R: Wait>(
    rt: &R,
    m: &mut Shared,
    bound: Bound,
    cell: &Cell,
    value: i64,
) -> LineOutcome
    requires outside { m.old.inside ≡ None }
    requires known { IfSome (segment_of (standing_as bound)) (IsKnown (view_of_pass m.old)) }
    requires of_kind { IsOfKind cell.now.kind value }
    ensures { RanLine m.old m.new (On (segment_of (standing_as bound))
        (Sets m.old.caller cell.now value)) result }
{
    let Some(segment) = bound.segment() else {
        return LineOutcome::plain(Reply::Skipped);
    };
    let value = value_of(cell.kind, value);
    match segment.set(rt, m, &layout_of(cell), cell.offset, value) {
        Ok(_) => LineOutcome::plain(Reply::Fine),
        Err(refusal) => LineOutcome::plain(Reply::Refused(refusal)),
    }
}
