ghost use Rattle.fm_segment.specs.Learnt.{CanUse};
ghost use Rattle.fm_text.specs.Getting.{AfterGetText};
ghost use Rattle.fm_text.specs.Setting.{AfterSetText};
ghost use Rattle.fm_text.specs.Texts.{text_bytes};

use crate::reading::get_text_at;
use crate::zero_ended::put_zero_ended;
use fm_base::{Memory, Refusal};
use fm_segment::Segment;
use std::alloc::Global;
use std::sync::Wait;

/// Puts the bytes of `text` from an offset on, and a 0 behind them (`MemorySegment.setString`, Java SE 22). Other bytes
/// stay. A 0 within the text is put as it is.
///
/// Refused, in this order: `ReadOnly`, `Bounds` where the 0 would pass the segment's end, `WrongThread`, `Closed`. The
/// lowest piece comes first, each in a visit of its own; where the arena is closed in between, the pieces before stay
/// put.
pub fn set_text<R: Wait, M: Memory>(
    rt: &R,
    m: &mut M,
    s: &Segment,
    offset: u64,
    text: &str,
) -> Result<(), Refusal>
    requires { CanUse (M.view m.old) s.now }
    ensures { AfterSetText (M.view m.old) (M.view m.new) s.now offset text.now result }
{
    if s.is_read_only() {
        return Err(Refusal::ReadOnly);
    }
    let to = s.as_slice(offset, text.len() as u64 + 1)?;
    put_zero_ended(rt, m, to.arena(), to.first(), text.as_bytes())
}

/// The text from an offset on, up to the first byte that is 0 (`MemorySegment.getString`, Java SE 22).
///
/// Refused, in this order: `Bounds` where the offset is past the segment's size, `WrongThread`, `Closed`, `NoZero`
/// where no byte up to the segment's end is 0, `NotText` with the length of the longest front that is UTF-8; at an
/// offset that is the size `NoZero` alone. `Memory` may come after any piece. The lowest piece comes first, each in a
/// visit of its own, and none behind the first one with a 0; others may write between.
pub fn get_text<M: Memory>(
    alloc: Global,
    m: &mut M,
    s: &Segment,
    offset: u64,
) -> Result<String, Refusal>
    requires { CanUse (M.view m.old) s.now }
    ensures { AfterGetText (M.view m.old) (M.view m.new) s.now offset (text_bytes result) }
{
    let rest = s.as_slice_from(offset)?;
    get_text_at(alloc, m, rest.arena(), rest.first(), rest.size())
}
