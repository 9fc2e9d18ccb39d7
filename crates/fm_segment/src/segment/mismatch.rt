ghost use Rattle.std.specs.Prelude.{◌≡◌, ◌^◌, ◌<◌, ◌≤◌};
ghost use Rattle.std.specs.Option.{ForSome};
ghost use Rattle.fm_segment.specs.Comparisons.{mismatch_of};
ghost use Rattle.fm_segment.specs.Learnt.{CanUseBoth, AfterMismatch};

use super::Segment;
use fm_base::{Memory, Refusal};
use fm_segment_copies::mismatch_range;

impl Segment {
    /// The offset of the first byte in which it differs from `other`. Where one has all bytes of the other, and then
    /// more, it is the size of the smaller; where they are equal, -1.
    ///
    /// Refused, in this order: `WrongThread` where either arena is confined to another caller, `Closed`; where one has
    /// 0 bytes, neither, and no arena is entered. Pieces are read one by one, the lowest first and each in visits of
    /// its own, its own before those of `other`, and none after the first that differs.
    pub fn mismatch<M: Memory>(&self, m: &mut M, other: &Segment) -> Result<i64, Refusal>
        requires { CanUseBoth (M.view m.old) self.now other.now }
        ensures { AfterMismatch (M.view m.old) (M.view m.new) self.now other.now result }
    {
        let n = self.size().min(other.size());
        let found = mismatch_range(
            m,
            self.arena(),
            self.first(),
            other.arena(),
            other.first(),
            n,
        )?;
        Ok(answer_of(self.size(), other.size(), found))
    }
}

/// The answer for segments of these sizes, where `found` is the first byte that differs.
pub fn answer_of(size: u64, other: u64, found: Option<u64>) -> i64
    requires size { size ≤ 2 ^ 40 }
    requires found { ForSome found (λ offset. offset < 2 ^ 40) }
    ensures { result ≡ mismatch_of size other found }
{
    match found {
        Some(offset) => offset as i64,
        None if size == other => -1,
        None => size.min(other) as i64,
    }
}
