ghost use Rattle.std.specs.Prelude.{◌≡◌, None, IfSome};
ghost use Rattle.fm_rule_calls.specs.Told.{view_of_pass};
ghost use Rattle.fm_segment.specs.Access.{IsKnown};
ghost use Rattle.fm_script_lines.specs.Calls.{On, Fills, Copies, Compares};
ghost use Rattle.fm_script_lines.specs.Runs.{RanLine};
ghost use Rattle.fm_script_lines.specs.Standings.{segment_of, standing_as};

use crate::bound::Bound;
use crate::outcome::LineOutcome;
use crate::reply::Reply;
use fm_arena::Shared;
use std::sync::Wait;

/// `fill SEG BYTE`
pub(crate) fn fill<R: Wait>(rt: &R, m: &mut Shared, bound: Bound, byte: u8) -> LineOutcome
    requires outside { m.old.inside ≡ None }
    requires known { IfSome (segment_of (standing_as bound)) (IsKnown (view_of_pass m.old)) }
    ensures { RanLine m.old m.new (On (segment_of (standing_as bound))
        (Fills m.old.caller byte)) result }
{
    let Some(segment) = bound.segment() else {
        return LineOutcome::plain(Reply::Skipped);
    };
    match segment.fill(rt, m, byte) {
        Ok(_) => LineOutcome::plain(Reply::Fine),
        Err(refusal) => LineOutcome::plain(Reply::Refused(refusal)),
    }
}

/// `copy SRC DST`
pub(crate) fn copy<R: Wait>(rt: &R, m: &mut Shared, source: Bound, target: Bound) -> LineOutcome
    requires outside { m.old.inside ≡ None }
    requires source { IfSome (segment_of (standing_as source)) (IsKnown (view_of_pass m.old)) }
    requires target { IfSome (segment_of (standing_as target)) (IsKnown (view_of_pass m.old)) }
    ensures { RanLine m.old m.new (On (segment_of (standing_as source))
        (λ r. On (segment_of (standing_as target)) (Copies m.old.caller r))) result }
{
    let Some(source) = source.segment() else {
        return LineOutcome::plain(Reply::Skipped);
    };
    let Some(target) = target.segment() else {
        return LineOutcome::plain(Reply::Skipped);
    };
    match target.copy_from(rt, m, &source) {
        Ok(_) => LineOutcome::plain(Reply::Fine),
        Err(refusal) => LineOutcome::plain(Reply::Refused(refusal)),
    }
}

/// `mismatch SEG SEG`
pub(crate) fn mismatch(m: &mut Shared, segment: Bound, other: Bound) -> LineOutcome
    requires outside { m.old.inside ≡ None }
    requires segment { IfSome (segment_of (standing_as segment)) (IsKnown (view_of_pass m.old)) }
    requires other { IfSome (segment_of (standing_as other)) (IsKnown (view_of_pass m.old)) }
    ensures { RanLine m.old m.new (On (segment_of (standing_as segment))
        (λ r. On (segment_of (standing_as other)) (Compares m.old.caller r))) result }
{
    let Some(segment) = segment.segment() else {
        return LineOutcome::plain(Reply::Skipped);
    };
    let Some(other) = other.segment() else {
        return LineOutcome::plain(Reply::Skipped);
    };
    match segment.mismatch(m, &other) {
        Ok(number) => LineOutcome::plain(Reply::Number(number)),
        Err(refusal) => LineOutcome::plain(Reply::Refused(refusal)),
    }
}
