ghost use Rattle.std.specs.Prelude.{◌≡◌, Some, IfOk, IfErr};
ghost use Rattle.fm_layout.specs.Size.{greatest_alignment};
ghost use Rattle.fm_layout.specs.Made.{fault_of};
ghost use Rattle.fm_layout.specs.Extent.{IsStructExtent, IsUnionExtent};
ghost use Rattle.fm_layout.specs.Views.{trees};

use super::Layout;
use fm_base::Refusal;

/// The greatest size and the greatest alignment, in bytes.
pub(super) const LIMIT: u64 = 1 << 40;

/// The size and the alignment of a group, in bytes.
#[derive(Clone, Copy)]
pub(super) struct Extent {
    pub(super) size: u64,
    pub(super) alignment: u64,
}

/// The extent of a struct of these members, or the refusal of the first that breaks the rule.
pub(super) fn struct_extent(members: &[Layout]) -> Result<Extent, Refusal>
    ensures found { IfOk result (λ e. IsStructExtent e.size e.alignment (trees members.now)) }
    ensures fault { IfErr result (λ r. fault_of 0 0 (trees members.now) ≡ Some r) }
{
    let mut size = 0;
    let mut alignment = 1;
    for (i, member) in members.iter().enumerate() {
        let bytes = member.size();
        let least = member.alignment();
        if size % least != 0 {
            return Err(Refusal::MemberMisaligned(i as u64, size));
        }
        if size + bytes > LIMIT {
            return Err(Refusal::Overflow);
        }
        size += bytes;
        alignment = alignment.max(least);
    }
    Ok(Extent { size, alignment })
}

/// The extent of a union of these members.
pub(super) fn union_extent(members: &[Layout]) -> Extent
    ensures { IsUnionExtent result.size result.alignment (trees members.now) }
{
    let mut size = 0;
    let mut alignment = 1;
    for member in members {
        size = member.size().max(size);
        alignment = member.alignment().max(alignment);
    }
    Extent { size, alignment }
}

/// The greatest alignment of these members, 1 without any.
pub(super) fn greatest_alignment(members: &[Layout]) -> u64
    ensures { result ≡ greatest_alignment (trees members.now) }
{
    let mut greatest = 1;
    for member in members {
        greatest = member.alignment().max(greatest);
    }
    greatest
}
