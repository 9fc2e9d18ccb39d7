ghost use Rattle.fm_lanes.specs.Value.{kind_of};
ghost use Rattle.fm_segment.specs.Access.{HasKind};
ghost use Rattle.fm_segment.specs.Alone.{SetsThenGets};

use crate::segment::Segment;
use fm_lanes::{Value, encode};
use fm_layout::Layout;

/// Where the only caller set `v`, and gets a value of the same layout next, it is `v`.
///
/// It does nothing: a caller calls it to know this.
pub fn sets_then_gets(segment: &Segment, layout: &Layout, offset: u64, v: Value)
    requires { HasKind layout.now (kind_of v) }
    ensures { SetsThenGets segment.now layout.now offset v }
{
    let _ = encode(v);
}
