ghost use Rattle.std.specs.Prelude.{◌≡◌};
ghost use Rattle.fm_segment.specs.Slices.{aligned_slice_of};

use fm_base::Refusal;
use fm_segment::Segment;

/// The first bytes of one segment, given anew by each call (`SegmentAllocator.prefixAllocator`, Java SE 22).
#[derive(Clone, Copy, Debug, PartialEq, Eq)]
pub struct PrefixAllocator {
    segment: Segment,
}

impl PrefixAllocator {
    /// Of the first bytes of this segment.
    pub fn over(s: Segment) -> PrefixAllocator
        ensures { result.segment ≡ s }
    {
        PrefixAllocator { segment: s }
    }

    /// The first `size` bytes, at a place that is a multiple of `align` bytes: the same ones as a call before gave.
    /// They are as they were.
    ///
    /// Refused, in this order: `BadAlignment` where `align` is no power of two, `Bounds` where the segment has fewer
    /// bytes, `Misaligned` where its first place is no multiple of `align`.
    pub fn allocate(&self, size: u64, align: u64) -> Result<Segment, Refusal>
        ensures { result ≡ aligned_slice_of 0 size align self.now.segment }
    {
        self.segment.as_slice_aligned(0, size, align)
    }
}
