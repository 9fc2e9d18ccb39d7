mod access;
mod place;
mod update;
mod whole;

ghost use Rattle.std.specs.Prelude.{◌≡◌};

use fm_path::Resolved;
pub use place::Support;
use std::marker::Model;

/// Access to the value that a path into a layout leads to. Contracts see it as the resolved path.
///
/// A call takes a segment, a base and an index for each step that the path leaves open. The whole layout stands at the
/// base, an offset in bytes from the segment's start. It is tested in this order: `Unsupported` where the call doesn't
/// work on such values; `IndexOut` with the first index that isn't below its bound; `ReadOnly` where the call writes;
/// `Bounds` where the layout, and not only the value, passes the segment's end; `Misaligned` where the base's place in
/// its arena is no multiple of the layout's alignment; `WrongThread`; `Closed`.
#[derive(Debug, Drop)]
pub struct VarHandle {
    resolved: Resolved,
}

impl Model for VarHandle {
    ghost use Rattle.fm_path.specs.Resolution.{Resolution};

    ghost Value = { Resolution };

    ghost view = { λ h. h.resolved };
}

impl VarHandle {
    /// A handle for the value that the path was resolved to (`MemoryLayout.varHandle`). Takes no memory.
    pub fn of(resolved: Resolved) -> VarHandle
        ensures { result ≡ resolved }
    {
        VarHandle { resolved }
    }

    /// What the path was resolved to: its value, its dims, the layout's size and alignment.
    pub fn resolved(&self) -> &Resolved
        ensures { result.now ≡ self.now }
    {
        &self.resolved
    }
}
