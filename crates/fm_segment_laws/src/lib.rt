//! Laws of all accesses to segments, and of all calls of handles: they change only bytes that their arena has given.
#![tactic(auto)]

ghost use Rattle.fm_segment_laws.specs.Accesses.{AccessesAreTidy, LoneAccessesAreTidy};
ghost use Rattle.fm_segment_laws.specs.Handles.{HandlesAreTidy, LoneHandlesAreTidy, PathsStayInside};

use fm_layout::Layout;

/// Each own entry of an access to a segment is tidy in the state in which it was made.
pub fn accesses_are_tidy()
    ensures { AccessesAreTidy }
{}

/// Where the caller is by itself, the entries of an access to a segment are tidy.
pub fn lone_accesses_are_tidy()
    ensures { LoneAccessesAreTidy }
{}

/// Each own entry of a call of a handle is tidy in the state in which it was made.
pub fn handles_are_tidy()
    ensures { HandlesAreTidy }
{}

/// Where the caller is by itself, the entries of a call of a handle are tidy.
pub fn lone_handles_are_tidy()
    ensures { LoneHandlesAreTidy }
{}

/// Does nothing. What it promises: each path into the layout is resolved to what stays inside it, as the laws of
/// handles ask.
pub fn paths_stay_inside(layout: &Layout)
    ensures { PathsStayInside layout.now }
{
    let _size = layout.size();
}
