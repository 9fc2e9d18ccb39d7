ghost use Rattle.std.specs.Prelude.{◌≡◌, ◌+◌, ◌≤◌, ◌↔◌, IsTrue};
ghost use Rattle.fm_segment.specs.Slices.{aligned_slice_of, rest_of, slice_of};

use super::Segment;
use crate::alignment::is_aligned;
use fm_base::Refusal;

impl Segment {
    /// So many bytes from an offset on (`asSlice`). Refused: `Bounds` where they pass the end.
    #[inline(always)]
    pub fn as_slice(&self, offset: u64, size: u64) -> Result<Segment, Refusal>
        ensures { result ≡ slice_of offset size self.now }
    {
        if !self.has(offset, size) {
            return Err(Refusal::Bounds);
        }
        Ok(self.part(offset, size))
    }

    /// All bytes from an offset on (`asSlice`). Refused: `Bounds` where the offset passes the end.
    pub fn as_slice_from(&self, offset: u64) -> Result<Segment, Refusal>
        ensures { result ≡ rest_of offset self.now }
    {
        if offset > self.size {
            return Err(Refusal::Bounds);
        }
        Ok(self.part(offset, self.size - offset))
    }

    /// So many bytes from an offset on, at a place that is a multiple of `align` bytes (`asSlice`).
    ///
    /// Refused, in this order: `BadAlignment` where `align` is no power of two, `Bounds` where the bytes pass the end,
    /// `Misaligned` where the place of the first is no multiple of `align`.
    pub fn as_slice_aligned(&self, offset: u64, size: u64, align: u64) -> Result<Segment, Refusal>
        ensures { result ≡ aligned_slice_of offset size align self.now }
    {
        if !align.is_power_of_two() {
            return Err(Refusal::BadAlignment);
        }
        let slice = self.as_slice(offset, size)?;
        if !is_aligned(slice.first, align) {
            return Err(Refusal::Misaligned);
        }
        Ok(slice)
    }

    /// Whether it has so many bytes from an offset on.
    #[inline(always)]
    pub(super) fn has(&self, offset: u64, size: u64) -> bool
        ensures { IsTrue result ↔ (offset + size ≤ self.now.size) }
    {
        offset <= self.size && size <= self.size - offset
    }
}
