ghost use Rattle.std.specs.Prelude.{◌≡◌};
ghost use Rattle.fm_lanes.specs.Value.{kind_of};
ghost use Rattle.fm_handle.specs.Alone.{SetsThenGets};
ghost use Rattle.fm_handle.specs.Place.{value_place};
ghost use Rattle.fm_handle.specs.Touched.{StandsAtItsPath};

use crate::handle::VarHandle;
use fm_lanes::{Value, encode};
use fm_segment::Segment;

/// Does nothing. What it promises holds of every resolved path: at the place that a handle comes to, be it to read, to
/// write or to update, stand the bytes of the place which following the path finds in the list of all places, the
/// layout standing at the base, whole and aligned.
pub fn stands_at_its_path()
    ensures { StandsAtItsPath }
{}

/// Where the only caller set `v` through a handle, and gets the value there next, it is `v`.
///
/// It does nothing: a caller calls it to know this.
pub fn sets_then_gets(handle: &VarHandle, s: &Segment, base: u64, indices: &[u64], v: Value)
    requires { kind_of v ≡ handle.now.value.kind }
    ensures { SetsThenGets handle.now.value s.now.arena
        (value_place base indices.now handle.now s.now) v }
{
    let _ = encode(v);
}
