ghost use Rattle.std.specs.Prelude.{◌≡◌};
ghost use Rattle.fm_segment.specs.Copies.{checked_copy};
ghost use Rattle.fm_segment.specs.Learnt.{CanUseBoth, AfterCopy};

use super::Segment;
use fm_base::{Memory, Refusal};
use fm_segment_copies::copy_range;
use std::sync::Wait;

impl Segment {
    /// Copies all bytes of `src` to its start (`copyFrom`). Its other bytes stay.
    ///
    /// Refused, in this order: `ReadOnly`, `Bounds` where `src` is larger, `WrongThread`, `Closed`, as `copy` is.
    pub fn copy_from<R: Wait, M: Memory>(
        &self,
        rt: &R,
        m: &mut M,
        src: &Segment,
    ) -> Result<(), Refusal>
        requires { CanUseBoth (M.view m.old) src.now self.now }
        ensures { AfterCopy (M.view m.old) (M.view m.new) src.now 0 self.now 0 src.now.size result }
    {
        Segment::copy(rt, m, src, 0, self, 0, src.size())
    }

    /// Copies `n` bytes, from the offset `src_at` of `src` to the offset `dst_at` of `dst`. Other bytes stay.
    ///
    /// Refused, in this order: `ReadOnly`, `Bounds` where the bytes pass the end of either, `WrongThread` where either
    /// arena is confined to another caller, `Closed`. A copy of 0 bytes enters no arena and is refused as `Bounds`
    /// alone. Pieces are read and put one by one, each in visits of its own, those of the source before those of the
    /// target; the lowest piece comes first, but inside one arena to a higher place the highest. Where an arena is
    /// closed in between, the pieces before stay put.
    pub fn copy<R: Wait, M: Memory>(
        rt: &R,
        m: &mut M,
        src: &Segment,
        src_at: u64,
        dst: &Segment,
        dst_at: u64,
        n: u64,
    ) -> Result<(), Refusal>
        requires { CanUseBoth (M.view m.old) src.now dst.now }
        ensures { AfterCopy (M.view m.old) (M.view m.new) src.now src_at dst.now dst_at n result }
    {
        check_copy(src, src_at, dst, dst_at, n)?;
        let from = src.part(src_at, n);
        let to = dst.part(dst_at, n);
        copy_range(rt, m, from.arena(), from.first(), to.arena(), to.first(), n)
    }
}

/// What refuses a copy before an arena is entered, in this order: `ReadOnly`, `Bounds`.
pub fn check_copy(
    src: &Segment,
    src_at: u64,
    dst: &Segment,
    dst_at: u64,
    n: u64,
) -> Result<(), Refusal>
    ensures { result ≡ checked_copy src.now src_at dst.now dst_at n }
{
    dst.check_write(n)?;
    if !(src.has(src_at, n) && dst.has(dst_at, n)) {
        return Err(Refusal::Bounds);
    }
    Ok(())
}
