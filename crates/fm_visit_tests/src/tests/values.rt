//! Values, bytes and ranges of a segment of 28 bytes, whose word at the offset 4 is the first at a word's start.
ghost use Rattle.std.specs.Prelude.{◌≤◌};
ghost use Rattle.fm_segment.specs.Access.{IsKnown};
ghost use Rattle.fm_visit.specs.Learnt.{IsIn};

use crate::tests::rows::{Answer, Call, Form, Found, answers};
use fm_base::{Memory, Refusal};
use fm_lanes::{Order, Value, ValueKind};
use fm_segment::Segment;
use fm_visit::Visit;
use std::process::Abort;
use std::sync::Wait;

/// A long's layout, and one with its bytes anywhere; an int's and a short's with the highest byte first.
const LONG: Form = (Order::Little, 8);

const LOOSE: Form = (Order::Little, 1);

const INT: Form = (Order::Big, 4);

const SHORT: Form = (Order::Big, 1);

/// What the calls are answered, where others add `step` to a word before each act on it.
pub(crate) fn use_values<R: Abort + Wait, M: Memory>(
    rt: &R,
    m: &mut M,
    visit: &Visit,
    s: &Segment,
    step: u8,
)
    requires inside { IsIn (M.view m.old) visit.now.arena s.now }
    requires small { step ≤ 1 }
    ensures { IsIn (M.view m.new) visit.now.arena s.now }
{
    let more = i64::from(step);
    let rows = [
        (Call::Set(LONG, 4, Value::Long(7)), Ok(Found::Nothing)),
        (
            Call::Get(ValueKind::Long, LONG, 4),
            Ok(Found::Value(Value::Long(7 + more))),
        ),
        // the lowest byte, which the others change, is the first of the four
        (Call::Set(INT, 12, Value::Int(258)), Ok(Found::Nothing)),
        (
            Call::Get(ValueKind::Int, INT, 12),
            Ok(Found::Value(Value::Int(258 + 0x0100_0000 * i32::from(step)))),
        ),
        // six bytes in one word, and two in the next
        (
            Call::Set(LOOSE, 6, Value::Long(0x0807_0605_0403_0201)),
            Ok(Found::Nothing),
        ),
        (
            Call::Get(ValueKind::Long, LOOSE, 6),
            Ok(Found::Value(Value::Long(0x0807_0605_0403_0201 + more * 0x0001_0000_0000_0000))),
        ),
        (
            Call::Get(ValueKind::Byte, LOOSE, 8),
            Ok(Found::Value(Value::Byte(3))),
        ),
        // a byte in each of two words, the highest first
        (Call::Set(SHORT, 19, Value::Short(258)), Ok(Found::Nothing)),
        (
            Call::Get(ValueKind::Short, SHORT, 19),
            Ok(Found::Value(Value::Short(258 + i16::from(step)))),
        ),
        (Call::PutBytes(3, [9, 8, 7, 6, 5]), Ok(Found::Nothing)),
        (Call::GetBytes(2), Ok(Found::Bytes([0, 9, 8 + step, 7, 6]))),
        // the highest piece first: seven bytes of it are read before they are put over themselves
        (Call::Copy(4, 5, 8), Ok(Found::Nothing)),
        (
            Call::GetBytes(4),
            Ok(Found::Bytes([8 + 5 * step, 8 + 3 * step, 7, 6, 5])),
        ),
        // others change the words of the second piece between its two reads
        (Call::Mismatch, Ok(Found::Offset(5 * more - 1))),
        (Call::Fill(7), Ok(Found::Nothing)),
        (Call::GetBytes(23), Ok(Found::Bytes([7, 7, 7, 7, 7]))),
    ];
    answers(rt, m, visit, s, s, &rows);
}

/// What the arguments refuse, the first cause that applies; and where no byte is put, nothing is.
pub(crate) fn refuse_values<R: Abort + Wait, M: Memory>(
    rt: &R,
    m: &mut M,
    visit: &Visit,
    s: &Segment,
)
    requires { IsIn (M.view m.old) visit.now.arena s.now }
    ensures { IsIn (M.view m.new) visit.now.arena s.now }
{
    let kept = s.as_read_only();
    let seven = Value::Long(7);
    let out: Answer = Err(Refusal::Bounds);
    let rows = [
        (Call::Get(ValueKind::Long, LONG, 21), out),
        (Call::Get(ValueKind::Long, LONG, u64::MAX), out),
        (
            Call::Get(ValueKind::Long, LONG, 5),
            Err(Refusal::Misaligned),
        ),
        (Call::Set(LONG, 21, seven), out),
        (Call::Set(LONG, 5, seven), Err(Refusal::Misaligned)),
        (Call::GetBytes(24), out),
        (Call::GetBytes(u64::MAX), out),
        (Call::PutBytes(24, [1; 5]), out),
        (Call::Copy(0, 21, 8), Err(Refusal::ReadOnly)),
        (Call::Copy(21, 0, 8), Err(Refusal::ReadOnly)),
        (Call::Copy(28, 28, 0), Ok(Found::Nothing)),
        (Call::Copy(29, 28, 0), out),
    ];
    answers(rt, m, visit, s, &kept, &rows);
    let kept_rows = [
        (Call::Set(LONG, 21, seven), Err(Refusal::ReadOnly)),
        (Call::PutBytes(24, [1; 5]), Err(Refusal::ReadOnly)),
        (Call::Fill(1), Err(Refusal::ReadOnly)),
        (Call::Copy(0, 21, 8), out),
        (
            Call::Get(ValueKind::Byte, LOOSE, 23),
            Ok(Found::Value(Value::Byte(7))),
        ),
    ];
    answers(rt, m, visit, &kept, s, &kept_rows);
}

/// Nothing is done with a segment of another arena.
pub(crate) fn refuse_values_of_another<R: Abort + Wait, M: Memory>(
    rt: &R,
    m: &mut M,
    visit: &Visit,
    s: &Segment,
    other: &Segment,
)
    requires inside { IsIn (M.view m.old) visit.now.arena s.now }
    requires other { IsKnown (M.view m.old) other.now }
    ensures inside { IsIn (M.view m.new) visit.now.arena s.now }
    ensures other { IsKnown (M.view m.new) other.now }
{
    let none: Answer = Err(Refusal::Unsupported);
    let to_it = [
        (Call::Copy(0, 0, 8), none),
        (Call::Copy(0, 29, 8), none),
        (Call::Mismatch, none),
    ];
    answers(rt, m, visit, s, other, &to_it);
    let of_it = [
        (Call::Get(ValueKind::Long, LONG, 4), none),
        (Call::Get(ValueKind::Long, LONG, u64::MAX), none),
        (Call::Set(LONG, 4, Value::Long(7)), none),
        (Call::GetBytes(0), none),
        (Call::PutBytes(0, [1; 5]), none),
        (Call::Fill(1), none),
        (Call::Copy(0, 0, 8), none),
        (Call::Mismatch, none),
    ];
    answers(rt, m, visit, other, s, &of_it);
}
