ghost use Rattle.std.specs.Prelude.{◌≡◌, None, IfSome, Ok};
ghost use Rattle.fm_rule_calls.specs.Told.{view_of_pass};
ghost use Rattle.fm_rule_facts.specs.Views.{View};
ghost use Rattle.fm_rule_facts.specs.Views as pass;
ghost use Rattle.fm_segment.specs.Access.{IsKnown};
ghost use Rattle.fm_segment.specs.Region.{read_only_of};
ghost use Rattle.fm_segment.specs.Slices.{slice_of};
ghost use Rattle.fm_script_lines.specs.Calls.{On, Allocates, Answers, Called, segment_made};
ghost use Rattle.fm_script_lines.specs.Pages.{PagesTold};
ghost use Rattle.fm_script_lines.specs.Runs.{RanLine};
ghost use Rattle.fm_script_lines.specs.Standings.{arena_of, segment_of, standing_as};

use crate::bound::Bound;
use crate::outcome::LineOutcome;
use crate::reply::Reply;
use crate::standing::Standing;
use fm_arena::Shared;
use fm_base::Memory;
use fm_segment::Segment;
use std::sync::Wait;

/// `alloc ARENA NAME SIZE ALIGN`
pub(crate) fn allocate<R: Wait>(
    rt: &R,
    m: &mut Shared,
    bound: Bound,
    size: u64,
    align: u64,
) -> LineOutcome
    requires outside { m.old.inside ≡ None }
    requires known { IfSome (arena_of (standing_as bound)) (pass.IsKnown m.old) }
    ensures ran { RanLine m.old m.new (On (arena_of (standing_as bound))
        (Allocates m.old.caller size align)) result }
    ensures pages { IfSome (arena_of (standing_as bound))
        (λ id. PagesTold m.old m.new id size align result.reply) }
{
    let Some(arena) = bound.arena() else {
        return LineOutcome::plain(Reply::Skipped);
    };
    match m.allocate(rt, arena, size, align) {
        Ok(place) => LineOutcome {
            reply: Reply::Place(place),
            made: Standing::Segment(Segment::of(arena, place, size)),
        },
        Err(refusal) => LineOutcome::plain(Reply::Refused(refusal)),
    }
}

/// `slice SEG NAME OFFSET SIZE`
pub(crate) fn slice(bound: Bound, offset: u64, size: u64) -> LineOutcome
    ensures { (p : View) → p.inside ≡ None → IfSome (segment_of (standing_as bound))
        (IsKnown (view_of_pass p))
        → RanLine p p (On (segment_of (standing_as bound))
        (λ r. Called (Answers (slice_of offset size r)) segment_made)) result }
{
    let Some(segment) = bound.segment() else {
        return LineOutcome::plain(Reply::Skipped);
    };
    match segment.as_slice(offset, size) {
        Ok(slice) => LineOutcome {
            reply: Reply::Fine,
            made: Standing::Segment(slice),
        },
        Err(refusal) => LineOutcome::plain(Reply::Refused(refusal)),
    }
}

/// `readonly SEG NAME`
pub(crate) fn read_only(bound: Bound) -> LineOutcome
    ensures { (p : View) → p.inside ≡ None → IfSome (segment_of (standing_as bound))
        (IsKnown (view_of_pass p))
        → RanLine p p (On (segment_of (standing_as bound))
        (λ r. Called (Answers (Ok (read_only_of r))) segment_made)) result }
{
    let Some(segment) = bound.segment() else {
        return LineOutcome::plain(Reply::Skipped);
    };
    LineOutcome {
        reply: Reply::Fine,
        made: Standing::Segment(segment.as_read_only()),
    }
}
