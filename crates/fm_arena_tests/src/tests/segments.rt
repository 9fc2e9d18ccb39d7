ghost use Rattle.std.specs.Prelude.{◌≡◌, None};
ghost use Rattle.fm_lanes.specs.Value.{kind_of};
ghost use Rattle.fm_segment.specs.Access.{HasKind};
ghost use Rattle.fm_segment.specs.Learnt.{CanUse};

use crate::tests::compared::same;
use crate::tests::segment_calls::{Call, Part, calls, fresh};
use fm_base::{Kind, Memory, Refusal};
use fm_lanes::{Order, Value};
use fm_layout::Layout;
use fm_segment::Segment;
use std::process::Abort;
use std::sync::Wait;

/// A value of each kind.
pub const OF_EACH_KIND: [Value; 6] = [
    Value::Byte(-2),
    Value::Boolean(true),
    Value::Char(0xabcd),
    Value::Short(-300),
    Value::Int(-70_000),
    Value::Long(0x0102_0304_0506_0708),
];

/// A layout of the value's kind, in this order and with this alignment.
pub fn layout_of<R: Abort>(rt: &R, v: Value, order: Order, align: u64) -> Layout
    ensures { HasKind result (kind_of v) }
{
    let layout = Layout::value(v.kind()).with_order(order);
    layout.with_alignment(align).expect(rt, "an alignment")
}

/// The 16 bytes at the front of a segment.
pub const ALL: Part = Part {
    at: 0,
    size: 16,
    is_read_only: false,
};

/// The first eight of them.
pub const LOW: Part = Part {
    at: 0,
    size: 8,
    is_read_only: false,
};

/// The last eight of them.
pub const HIGH: Part = Part {
    at: 8,
    size: 8,
    is_read_only: false,
};

/// The first four of them.
pub const FRONT: Part = Part {
    at: 0,
    size: 4,
    is_read_only: false,
};

/// None of them.
pub const NONE: Part = Part {
    at: 0,
    size: 0,
    is_read_only: false,
};

/// The first eight of them, to be read alone.
pub const READ_ONLY: Part = Part {
    at: 0,
    size: 8,
    is_read_only: true,
};

/// What every memory does with segments of an arena that others leave alone.
pub fn use_ranges<R: Abort + Wait, M: Memory>(rt: &R, m: &mut M)
    requires outside { (M.view m.old).inside ≡ None }
    ensures { (M.view m.new).inside ≡ None }
{
    let s = fresh(rt, m, Kind::Confined, 16);
    let rows = [
        (Call::Fill(LOW, 255), Ok(0)),
        (Call::Mismatch(LOW, HIGH), Ok(0)),
        (Call::CopyFrom(HIGH, LOW), Ok(0)),
        (Call::Mismatch(LOW, HIGH), Ok(-1)),
        (Call::Mismatch(FRONT, LOW), Ok(4)),
        (Call::CopyFrom(FRONT, LOW), Err(Refusal::Bounds)),
        (Call::Close, Ok(0)),
        (Call::Fill(LOW, 1), Err(Refusal::Closed)),
        (Call::CopyFrom(HIGH, FRONT), Err(Refusal::Closed)),
        (Call::Mismatch(FRONT, HIGH), Err(Refusal::Closed)),
    ];
    calls(rt, m, &s, &rows);
}

/// What every memory does with values of a shared arena: the value that is got after 7 was set, that which is got after
/// a copy, and where the two then differ are as others changed them.
pub fn use_values<R: Abort + Wait, M: Memory>(rt: &R, m: &mut M, found: [i64; 3])
    requires outside { (M.view m.old).inside ≡ None }
    ensures { (M.view m.new).inside ≡ None }
{
    let [set, copied, differs] = found;
    let s = fresh(rt, m, Kind::Shared, 16);
    let rows = [
        (Call::Set(LOW, 0, 7), Ok(0)),
        (Call::Get(LOW, 0), Ok(set)),
        (Call::Copy(LOW, 0, HIGH, 0, 8), Ok(0)),
        (Call::Get(HIGH, 0), Ok(copied)),
        (Call::Mismatch(LOW, HIGH), Ok(differs)),
    ];
    calls(rt, m, &s, &rows);
}

/// A copy whose source is closed by another caller before this one's fifth `enter`: what was copied before stays.
pub fn copy_until_closed<R: Abort + Wait, M: Memory>(rt: &R, m: &mut M)
    requires outside { (M.view m.old).inside ≡ None }
    ensures { (M.view m.new).inside ≡ None }
{
    let s = fresh(rt, m, Kind::Shared, 16);
    let t = fresh(rt, m, Kind::Shared, 16);
    let before = [(Call::Set(ALL, 0, 7), Ok(0)), (Call::Set(ALL, 8, 9), Ok(0))];
    calls(rt, m, &s, &before);
    same(rt, t.copy_from(rt, m, &s), Err(Refusal::Closed));
    let copied = [(Call::Get(ALL, 0), Ok(7)), (Call::Get(ALL, 8), Ok(0))];
    calls(rt, m, &t, &copied);
    calls(rt, m, &s, &[(Call::Get(ALL, 0), Err(Refusal::Closed))]);
}

/// What every memory does with a segment of 16 bytes of an arena that is confined to another caller. For 0 bytes no
/// arena is entered.
pub fn use_of_another<R: Abort + Wait, M: Memory>(rt: &R, m: &mut M, s: &Segment)
    requires { CanUse (M.view m.old) s.now }
    ensures { CanUse (M.view m.new) s.now }
{
    let rows = [
        (Call::Get(ALL, 9), Err(Refusal::Bounds)),
        (Call::Get(ALL, 1), Err(Refusal::Misaligned)),
        (Call::Get(ALL, 0), Err(Refusal::WrongThread)),
        (Call::Set(ALL, 0, 7), Err(Refusal::WrongThread)),
        (Call::Set(ALL, 1, 7), Err(Refusal::Misaligned)),
        (Call::Fill(ALL, 255), Err(Refusal::WrongThread)),
        (Call::CopyFrom(ALL, ALL), Err(Refusal::WrongThread)),
        (Call::Copy(ALL, 0, ALL, 9, 8), Err(Refusal::Bounds)),
        (Call::Copy(ALL, 0, ALL, 8, 8), Err(Refusal::WrongThread)),
        (Call::Mismatch(ALL, ALL), Err(Refusal::WrongThread)),
        (Call::Set(READ_ONLY, 9, 7), Err(Refusal::ReadOnly)),
        (Call::Fill(READ_ONLY, 255), Err(Refusal::ReadOnly)),
        (Call::CopyFrom(READ_ONLY, LOW), Err(Refusal::ReadOnly)),
        (Call::Get(READ_ONLY, 0), Err(Refusal::WrongThread)),
        (Call::Fill(NONE, 255), Ok(0)),
        (Call::CopyFrom(NONE, NONE), Ok(0)),
        (Call::CopyFrom(NONE, ALL), Err(Refusal::Bounds)),
        (Call::Copy(ALL, 16, ALL, 16, 0), Ok(0)),
        (Call::Mismatch(NONE, ALL), Ok(0)),
    ];
    calls(rt, m, s, &rows);
}
