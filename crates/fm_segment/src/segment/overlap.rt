ghost use Rattle.std.specs.Prelude.{◌↔◌, IsNone, IfSome};
ghost use Rattle.fm_segment.specs.Overlap.{AreApart, IsOverlap};

use super::Segment;

impl Segment {
    /// The slice of it whose bytes `other` has too (`asOverlappingSlice`); `None` exactly where they share no byte.
    /// It may be written where this segment may, whatever `other` says.
    pub fn overlap(&self, other: &Segment) -> Option<Segment>
        ensures none { IsNone result ↔ AreApart self.now other.now }
        ensures slice { IfSome result (IsOverlap self.now other.now) }
    {
        if self.arena != other.arena {
            return None;
        }
        let first = self.first.max(other.first);
        let end = (self.first + self.size).min(other.first + other.size);
        if first >= end {
            return None;
        }
        Some(self.part(first - self.first, end - first))
    }
}
