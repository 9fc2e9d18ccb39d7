ghost use Rattle.fm_base.specs.Learnt.{CanVisit};
ghost use Rattle.fm_text.specs.Allocating.{AfterAllocateText};

use crate::texts::set_text;
use fm_arena::Arena;
use fm_base::{Memory, Refusal};
use fm_segment::Segment;
use std::sync::Wait;

/// A new segment of the bytes of `text` and a 0 behind them (`SegmentAllocator.allocateFrom`, Java SE 22). It begins at
/// any place.
///
/// Refused, in this order: `WrongThread`, `Closed`, `NoRoom`, `PoolFull`, `Memory`, as `Arena::allocate` is. Where the
/// arena is closed while the text is put it is `Closed` too, and the bytes stay given.
pub fn allocate_text<R: Wait, M: Memory>(
    rt: &R,
    m: &mut M,
    arena: &Arena,
    text: &str,
) -> Result<Segment, Refusal>
    requires { CanVisit (M.view m.old) arena.now.id }
    ensures { AfterAllocateText M.nature (M.view m.old) (M.view m.new) arena.now.id text.now result }
{
    let segment = arena.allocate(rt, m, text.len() as u64 + 1, 1)?;
    set_text(rt, m, &segment, 0, text)?;
    Ok(segment)
}
