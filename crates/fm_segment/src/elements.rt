ghost use Rattle.std.specs.Prelude.{◌≡◌};
ghost use Rattle.std.specs.Iterator.{YieldsFirst, item_count};
ghost use Rattle.fm_segment.specs.Elements.{elements_of};

use crate::segment::Segment;
use fm_base::Refusal;
use fm_layout::Layout;
use std::marker::Model;

/// The slices of a segment, one after the other, that are still to come. Contracts see it as their list.
#[derive(Debug, Drop)]
pub struct Elements {
    segment: Segment,
    /// The size of an element in bytes.
    size: u64,
    /// The index of the next element.
    next: u64,
    /// How many are still to come.
    left: u64,
}

impl Model for Elements {
    ghost use Rattle.std.specs.Prelude.{List};
    ghost use Rattle.fm_segment.specs.Region.{Region};

    ghost Value = { List Region };

    ghost use Rattle.fm_segment.specs.Elements.{elements_from, HoldsElements};

    ghost view = { λ e. elements_from e.next e.left e.size e.segment };

    ghost invariant = { λ e. HoldsElements e.next e.left e.size e.segment };
}

impl Iterator for Elements {
    type Item = Segment;

    ghost next_gives = { YieldsFirst (λ e. e) };

    ghost remaining = { item_count (λ e. e) };

    fn next(&mut self) -> Option<Segment> {
        if self.left == 0 {
            return None;
        }
        let element = self.segment.part(self.next * self.size, self.size);
        self.next += 1;
        self.left -= 1;
        Some(element)
    }
}

impl Segment {
    /// Its consecutive slices of the layout's size, which together are all of it (`elements`).
    ///
    /// Refused, in this order: `NoSize` where the layout has no bytes, `Ragged` with the rest where the layout's size
    /// doesn't divide this segment's, `ElementRagged` where the layout's size is no multiple of its alignment,
    /// `Misaligned` where the first place is no multiple of that alignment.
    pub fn elements(&self, layout: &Layout) -> Result<Elements, Refusal>
        ensures { result ≡ elements_of layout.now self.now }
    {
        let size = layout.size();
        if size == 0 {
            return Err(Refusal::NoSize);
        }
        let rest = self.size() % size;
        if rest != 0 {
            return Err(Refusal::Ragged(rest));
        }
        let alignment = layout.alignment();
        if size % alignment != 0 {
            return Err(Refusal::ElementRagged);
        }
        if self.first() % alignment != 0 {
            return Err(Refusal::Misaligned);
        }
        Ok(Elements {
            segment: *self,
            size,
            next: 0,
            left: self.size() / size,
        })
    }
}
