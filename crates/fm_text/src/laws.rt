ghost use Rattle.fm_text.specs.Rows.{LieInRows, LieApart};

/// All slices that one `SlicingAllocator` gives lie in its segment, each at a multiple of its alignment and behind the
/// one before; and no two of them share a byte.
pub fn slices_lie_apart()
    ensures rows { LieInRows }
    ensures apart { LieApart }
{}
