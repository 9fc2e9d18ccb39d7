ghost use Rattle.std.specs.Prelude.{◌<◌, ◌≤◌, ◌^◌};

use fm_base::Refusal;
use fm_lanes::ValueKind;

/// The greatest size and the greatest alignment.
const LIMIT: u64 = 1 << 40;

/// All that constructors ask of a layout: its size, its alignment and the least one that it may be given, in bytes.
///
/// Each function here answers as the constructor of that name does, and nothing is built.
#[derive(Clone, Copy)]
pub(crate) struct Footprint {
    pub(crate) size: u64,
    pub(crate) alignment: u64,
    pub(crate) least: u64,
    ghost small: { size ≤ 2 ^ 40 },
    ghost positive: { 0 < alignment },
}

impl Footprint {
    ghost use Rattle.fm_layout.specs.Tree.{Tree, Trees};
    ghost use Rattle.fm_layout.specs.Made.{padding_of, sequence_of, struct_of, union_of, value_of, with_alignment};
    ghost use Rattle.fm_ljson.specs.Footprints.{AreFootprints, IsFootprint, IsWeighed};

    /// That of a value.
    pub(crate) fn value(kind: ValueKind) -> Footprint
        ensures { IsFootprint result (value_of kind) }
    {
        let size = u64::from(kind.width());
        Footprint {
            size,
            alignment: size,
            least: 1,
        }
    }

    /// That of so many bytes of padding.
    pub(crate) fn padding(size: u64) -> Result<Footprint, Refusal>
        ensures { IsWeighed result (padding_of size) }
    {
        if size == 0 {
            return Err(Refusal::BadPadding);
        }
        if size > LIMIT {
            return Err(Refusal::Overflow);
        }
        Ok(Footprint {
            size,
            alignment: 1,
            least: 1,
        })
    }

    /// That of so many elements.
    pub(crate) fn sequence(count: u64, element: Footprint) -> Result<Footprint, Refusal>
        ensures { (t : Tree) → IsFootprint element t → IsWeighed result (sequence_of count t) }
    {
        if element.size % element.alignment != 0 {
            return Err(Refusal::ElementRagged);
        }
        match count.checked_mul(element.size) {
            Some(size) if size <= LIMIT => Ok(Footprint {
                size,
                alignment: element.alignment,
                least: element.alignment,
            }),
            _ => Err(Refusal::Overflow),
        }
    }

    /// That of these members, one after the other.
    pub(crate) fn structure(members: &[Footprint]) -> Result<Footprint, Refusal>
        ensures { (ts : Trees) → AreFootprints members.now ts → IsWeighed result (struct_of ts) }
    {
        let mut size = 0;
        let mut alignment = 1;
        for (i, member) in members.iter().enumerate() {
            if size % member.alignment != 0 {
                return Err(Refusal::MemberMisaligned(i as u64, size));
            }
            if size + member.size > LIMIT {
                return Err(Refusal::Overflow);
            }
            size += member.size;
            alignment = member.alignment.max(alignment);
        }
        Ok(Footprint {
            size,
            alignment,
            least: alignment,
        })
    }

    /// That of these members, each at the start.
    pub(crate) fn union_of(members: &[Footprint]) -> Footprint
        ensures { (ts : Trees) → AreFootprints members.now ts → IsFootprint result (union_of ts) }
    {
        let mut size = 0;
        let mut alignment = 1;
        for member in members {
            size = member.size.max(size);
            alignment = member.alignment.max(alignment);
        }
        Footprint {
            size,
            alignment,
            least: alignment,
        }
    }

    /// That of the layout with this alignment.
    pub(crate) fn with_alignment(self, n: u64) -> Result<Footprint, Refusal>
        ensures { (t : Tree) → IsFootprint self t → IsWeighed result (with_alignment n t) }
    {
        if !n.is_power_of_two() {
            return Err(Refusal::BadAlignment);
        }
        if n > LIMIT {
            return Err(Refusal::Overflow);
        }
        if n < self.least {
            return Err(Refusal::AlignmentBelow(self.least));
        }
        Ok(Footprint {
            size: self.size,
            alignment: n,
            least: self.least,
        })
    }
}
