ghost use Rattle.std.specs.Prelude.{◌≡◌, IfOk};

use fm_base::{Refusal, round_up};
use fm_segment::Segment;
use std::marker::Model;

/// Slices of one segment, each behind the one before (`SegmentAllocator.slicingAllocator`, Java SE 22).
///
/// It isn't `Copy`: a copy would give the same bytes once more.
#[derive(Debug, Drop)]
pub struct SlicingAllocator {
    segment: Segment,
    /// How many bytes are behind, from the segment's first one on.
    used: u64,
}

impl Model for SlicingAllocator {
    ghost use Rattle.std.specs.Prelude.{◌≤◌};
    ghost use Rattle.fm_text.specs.Slices.{Slicing};

    ghost Value = { Slicing };

    ghost view = { λ s. record { segment = s.segment; used = s.used } };

    ghost invariant = { λ s. s.used ≤ s.segment.size };
}

impl SlicingAllocator {
    ghost use Rattle.fm_text.specs.Slices.{Allocates, LiesFrom, slicing};

    /// All bytes of the segment are to be given.
    pub fn over(s: Segment) -> SlicingAllocator
        ensures { result ≡ slicing s 0 }
    {
        SlicingAllocator {
            segment: s,
            used: 0,
        }
    }

    /// How many bytes of the segment are behind: those that were given, and those that were skipped to align them.
    pub fn used(&self) -> u64
        ensures { result ≡ self.now.used }
    {
        self.used
    }

    /// The next `size` bytes, from the first place on that is a multiple of `align` bytes. They are as they were.
    ///
    /// Refused, in this order: `BadAlignment` where `align` is no power of two, `Bounds` where the bytes pass the
    /// segment's end. A refused call gives nothing and skips nothing.
    pub fn allocate(&mut self, size: u64, align: u64) -> Result<Segment, Refusal>
        ensures slice { Allocates self.old self.new size align result }
        ensures lies { IfOk result (LiesFrom self.old size align) }
    {
        if !align.is_power_of_two() {
            return Err(Refusal::BadAlignment);
        }
        let first = self.segment.first();
        let offset = round_up(first + self.used, align) - u128::from(first);
        if offset > u128::from(self.segment.size()) {
            return Err(Refusal::Bounds);
        }
        let slice = self.segment.as_slice(offset as u64, size)?;
        self.used = offset as u64 + size;
        Ok(slice)
    }
}
