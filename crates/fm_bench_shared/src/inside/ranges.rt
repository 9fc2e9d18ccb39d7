//! Fills, copies and comparisons of segments, all in one visit.
ghost use Rattle.std.specs.Prelude.{◌≡◌, None};
ghost use Rattle.fm_segment.specs.Access.{IsKnown};
ghost use Rattle.fm_visit.specs.Learnt.{IsIn};

use crate::ranges::{SIZE, last, two};
use fm_base::{Memory, Refusal};
use fm_lanes::{Value, ValueKind};
use fm_layout::Layout;
use fm_segment::Segment;
use fm_visit::Visit;
use std::sync::Wait;

/// Fills a segment so often, each time with another byte, and answers its last long.
pub fn visit_fills<R: Wait, M: Memory>(rt: &R, m: &mut M, count: u64) -> Result<u64, Refusal>
    requires { (M.view m.old).inside ≡ None }
{
    let (segment, _) = two(rt, m)?;
    let visit = Visit::enter(m, segment.arena())?;
    let filled = fill(rt, m, &visit, &segment, count);
    visit.leave(m);
    filled?;
    last(m, &segment)
}

fn fill<R: Wait, M: Memory>(
    rt: &R,
    m: &mut M,
    visit: &Visit,
    segment: &Segment,
    count: u64,
) -> Result<(), Refusal>
    requires { IsIn (M.view m.old) visit.now.arena segment.now }
    ensures { IsIn (M.view m.new) visit.now.arena segment.now }
{
    for turn in 0..count {
        visit.fill(rt, m, segment, (turn % 256) as u8)?;
    }
    Ok(())
}

/// Copies a segment to another so often, each time with another last long, and answers what that is in the other.
pub fn visit_copies<R: Wait, M: Memory>(rt: &R, m: &mut M, count: u64) -> Result<u64, Refusal>
    requires { (M.view m.old).inside ≡ None }
{
    let (source, target) = two(rt, m)?;
    let visit = Visit::enter(m, source.arena())?;
    let copied = copy(rt, m, &visit, &source, &target, count);
    visit.leave(m);
    copied?;
    last(m, &target)
}

fn copy<R: Wait, M: Memory>(
    rt: &R,
    m: &mut M,
    visit: &Visit,
    source: &Segment,
    target: &Segment,
    count: u64,
) -> Result<(), Refusal>
    requires source { IsIn (M.view m.old) visit.now.arena source.now }
    requires target { IsKnown (M.view m.old) target.now }
    ensures source { IsIn (M.view m.new) visit.now.arena source.now }
    ensures target { IsKnown (M.view m.new) target.now }
{
    let long = Layout::value(ValueKind::Long);
    for turn in 0..count {
        let v = Value::Long((turn % 1_000) as i64);
        visit.set(rt, m, source, &long, SIZE - 8, v)?;
        visit.copy(rt, m, source, 0, target, 0, SIZE)?;
    }
    Ok(())
}

/// Compares two segments so often that differ in their last byte alone, and answers the sum of the answers.
pub fn visit_mismatches<R: Wait, M: Memory>(rt: &R, m: &mut M, count: u64) -> Result<u64, Refusal>
    requires { (M.view m.old).inside ≡ None }
{
    let (first, second) = two(rt, m)?;
    let visit = Visit::enter(m, first.arena())?;
    let sum = compare(rt, m, &visit, &first, &second, count);
    visit.leave(m);
    sum
}

fn compare<R: Wait, M: Memory>(
    rt: &R,
    m: &mut M,
    visit: &Visit,
    first: &Segment,
    second: &Segment,
    count: u64,
) -> Result<u64, Refusal>
    requires first { IsIn (M.view m.old) visit.now.arena first.now }
    requires second { IsKnown (M.view m.old) second.now }
    ensures first { IsIn (M.view m.new) visit.now.arena first.now }
    ensures second { IsKnown (M.view m.new) second.now }
{
    let long = Layout::value(ValueKind::Long);
    visit.set(rt, m, first, &long, SIZE - 8, Value::Long(1 << 56))?;
    let mut sum: u64 = 0;
    for _ in 0..count {
        let found = visit.mismatch(m, first, second)?;
        sum = sum.wrapping_add(found.unsigned_abs());
    }
    Ok(sum)
}
