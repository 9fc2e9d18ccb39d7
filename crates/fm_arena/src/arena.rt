ghost use Rattle.fm_base.specs.Learnt.{CanOpen, CanVisit, AfterOpen, AfterClose};
ghost use Rattle.fm_arena.specs.Arenas.{started, AfterAllocate};

use fm_base::{ArenaId, Kind, Memory, Refusal};
use fm_segment::Segment;
use std::sync::Wait;

/// An arena of a memory (`Arena`, JEP 454, Java SE 22): segments are allocated from it, and end with it.
///
/// | Kind | opened by | used by | ended by | closable |
/// |---|---|---|---|---|
/// | `Global` | `start` | every caller | nobody | no |
/// | `Automatic` | `AutoHandle::start` | every caller | `give_back` of its last handle | no |
/// | `Confined` | `start` | its owner, who opened it | `close` by its owner | yes |
/// | `Shared` | `start` | every caller | `close` by any caller | yes |
///
/// Java has `Arena.global()`, `ofAuto()`, `ofConfined()` and `ofShared()` for these. Each `start` with `Kind::Global`
/// opens an arena of its own, where Java has only one. Who isn't the owner is refused `WrongThread`, and a close of an
/// arena that isn't closable `CannotClose`.
///
/// It is the arena's name and no more: a copy names the same arena, and is used by other callers of the memory as this
/// one is.
#[derive(Clone, Copy, Debug, PartialEq, Eq)]
pub struct Arena {
    pub(crate) id: ArenaId,
}

impl Arena {
    ghost use Rattle.std.specs.Prelude.{◌≡◌};

    /// Opens an arena of this kind. `Shared::start` also says where a pool has no slot.
    ///
    /// Refused: `NoSlot`, or `Memory`. A refused call opens nothing.
    pub fn start<R: Wait, M: Memory>(rt: &R, m: &mut M, kind: Kind) -> Result<Arena, Refusal>
        requires { CanOpen (M.view m.old) kind }
        ensures { AfterOpen M.nature (M.view m.old) (M.view m.new) kind (started result) }
    {
        let id = m.open_arena(rt, kind)?;
        Ok(Arena { id })
    }

    /// A segment of `size` bytes that begins at a multiple of `align`. Its bytes were never given before
    /// (`Arena.allocate`). `Shared::allocate_segment` also says where a pool has too few pages.
    ///
    /// Refused, in this order: `BadAlignment`, `WrongThread`, `Closed`, `NoRoom`, `PoolFull`, `Memory`. A refused call
    /// gives nothing.
    pub fn allocate<R: Wait, M: Memory>(
        &self,
        rt: &R,
        m: &mut M,
        size: u64,
        align: u64,
    ) -> Result<Segment, Refusal>
        requires { CanVisit (M.view m.old) self.now.id }
        ensures { AfterAllocate M.nature (M.view m.old) (M.view m.new) self.now.id size align result }
    {
        let first = m.allocate(rt, self.id, size, align)?;
        Ok(Segment::of(self.id, first, size))
    }

    /// Ends the arena, once nobody is under way in it: no segment of it can be accessed afterwards (`Arena.close`).
    ///
    /// Refused, in this order: `CannotClose`, `WrongThread`, `Closed`, `Held`. A refused call changes nothing.
    pub fn close<R: Wait, M: Memory>(&self, rt: &R, m: &mut M) -> Result<(), Refusal>
        requires { CanVisit (M.view m.old) self.now.id }
        ensures { AfterClose (M.view m.old) (M.view m.new) self.now.id result }
    {
        m.close(rt, self.id)
    }

    /// Its name.
    pub fn id(&self) -> ArenaId
        ensures { result ≡ self.now.id }
    {
        self.id
    }
}
