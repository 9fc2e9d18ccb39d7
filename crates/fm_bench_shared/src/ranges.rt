ghost use Rattle.std.specs.Prelude.{◌≡◌, None, IfOk};
ghost use Rattle.fm_bench_shared.specs.Ready.{AreReady, CanAccess};

use crate::inside::{visit_copies, visit_fills, visit_mismatches};
use crate::memories::Asked;
use fm_base::{Kind, Memory, Refusal};
use fm_lanes::{Value, ValueKind, encode};
use fm_layout::Layout;
use fm_segment::Segment;
use std::sync::Wait;

/// The bytes of a segment.
pub const SIZE: u64 = 67_108_864;

/// Runs the loop of this name; none where there is no such loop, or it was refused.
pub fn ranges<R: Wait, M: Memory>(rt: &R, m: &mut M, asked: &Asked) -> Option<u64>
    requires { (M.view m.old).inside ≡ None }
{
    let count = asked.count;
    match asked.what.as_str() {
        "fills" => fills(rt, m, count).ok(),
        "copies" => copies(rt, m, count).ok(),
        "mismatches" => mismatches(rt, m, count).ok(),
        "visit-fills" => visit_fills(rt, m, count).ok(),
        "visit-copies" => visit_copies(rt, m, count).ok(),
        "visit-mismatches" => visit_mismatches(rt, m, count).ok(),
        _ => None,
    }
}

/// Fills a segment so often, each time with another byte, and answers its last long.
fn fills<R: Wait, M: Memory>(rt: &R, m: &mut M, count: u64) -> Result<u64, Refusal>
    requires { (M.view m.old).inside ≡ None }
{
    let (segment, _) = two(rt, m)?;
    for turn in 0..count {
        segment.fill(rt, m, (turn % 256) as u8)?;
    }
    last(m, &segment)
}

/// Copies a segment to another so often, each time with another last long, and answers what that is in the other.
fn copies<R: Wait, M: Memory>(rt: &R, m: &mut M, count: u64) -> Result<u64, Refusal>
    requires { (M.view m.old).inside ≡ None }
{
    let (source, target) = two(rt, m)?;
    let long = Layout::value(ValueKind::Long);
    for turn in 0..count {
        let v = Value::Long((turn % 1_000) as i64);
        source.set(rt, m, &long, SIZE - 8, v)?;
        target.copy_from(rt, m, &source)?;
    }
    last(m, &target)
}

/// Compares two segments so often that differ in their last byte alone, and answers the sum of the answers.
fn mismatches<R: Wait, M: Memory>(rt: &R, m: &mut M, count: u64) -> Result<u64, Refusal>
    requires { (M.view m.old).inside ≡ None }
{
    let (first, second) = two(rt, m)?;
    let long = Layout::value(ValueKind::Long);
    first.set(rt, m, &long, SIZE - 8, Value::Long(1 << 56))?;
    let mut sum: u64 = 0;
    for _ in 0..count {
        let found = first.mismatch(m, &second)?;
        sum = sum.wrapping_add(found.unsigned_abs());
    }
    Ok(sum)
}

/// Two segments of one arena.
pub fn two<R: Wait, M: Memory>(rt: &R, m: &mut M) -> Result<(Segment, Segment), Refusal>
    requires { (M.view m.old).inside ≡ None }
    ensures { IfOk result (λ made. AreReady (M.view m.new) made.0 made.1) }
{
    let arena = m.open_arena(rt, Kind::Shared)?;
    let first = m.allocate(rt, arena, 2 * SIZE, 8)?;
    Ok((
        Segment::of(arena, first, SIZE),
        Segment::of(arena, first + SIZE, SIZE),
    ))
}

/// The last long of a segment.
pub fn last<M: Memory>(m: &mut M, segment: &Segment) -> Result<u64, Refusal>
    requires { CanAccess (M.view m.old) segment.now }
{
    let long = Layout::value(ValueKind::Long);
    Ok(encode(segment.get(m, &long, SIZE - 8)?))
}
