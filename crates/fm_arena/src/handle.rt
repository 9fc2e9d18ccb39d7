ghost use Rattle.std.specs.Prelude.{◌≡◌, None};
ghost use Rattle.fm_arena.specs.Handles.{HasHandle, CanGiveBack, AfterStart, AfterAgain, AfterGiveBack};

use crate::shared::Shared;
use fm_base::{ArenaId, Kind, Refusal};
use fm_close::{GaveBack, give_back};
use fm_gate::{Maker, again, open_arena};
use std::sync::Wait;

/// A handle of an automatic arena (`Arena.ofAuto()`, Java SE 22), which lives as long as it has a handle.
///
/// In Java the arena ends some time after the last reference to it is gone. Here each reference is a handle, and the
/// call that gives back the last one ends the arena. A handle must be spent: it can't be dropped. It is used by the pass
/// that made it.
pub struct AutoHandle {
    arena: ArenaId,
    maker: Maker,
}

impl AutoHandle {
    /// Opens an automatic arena, which has this one handle.
    ///
    /// Refused: `NoSlot`.
    pub fn start<R: Wait>(rt: &R, m: &mut Shared) -> Result<AutoHandle, Refusal>
        requires { m.old.inside ≡ None }
        ensures { AfterStart m.old m.new result }
    {
        let arena = open_arena(rt, m.pool, &mut m.pass, Kind::Automatic)?;
        let maker = Maker::of(m.pool, &mut m.pass);
        Ok(AutoHandle { arena, maker })
    }

    /// Another handle of the arena.
    ///
    /// Refused: `TooManyHolds`. The arena has not ended, since it has this handle.
    pub fn again<R: Wait>(&self, rt: &R, m: &mut Shared) -> Result<AutoHandle, Refusal>
        requires { HasHandle m.old self.now }
        ensures { AfterAgain m.old m.new self.now result }
    {
        again(rt, m.pool, &mut m.pass, self.arena)?;
        let maker = Maker::of(m.pool, &mut m.pass);
        Ok(AutoHandle {
            arena: self.arena,
            maker,
        })
    }

    /// Spends the handle. Where it was the last one the arena ends, once nobody is under way in it.
    pub fn give_back<R: Wait>(self, rt: &R, m: &mut Shared) -> GaveBack
        requires { CanGiveBack m.old self }
        ensures { AfterGiveBack m.old m.new self.arena result }
    {
        let AutoHandle { arena, maker: _ } = self;
        give_back(rt, m.pool, &mut m.pass, arena)
    }

    /// The arena's name.
    pub fn arena(&self) -> ArenaId
        ensures { result ≡ self.now.arena }
    {
        self.arena
    }
}
