ghost use Rattle.fm_arena.specs.Lasting.{KeepsItsPool, HoldLasts, HandleLasts};
ghost use Rattle.fm_arena.specs.OpenLaws.{HeldIsOpen};
ghost use Rattle.fm_arena.specs.WorkerLaws.{WorkerLasts};

/// The pass of a `Shared` is one of the same pool after any calls of `Memory`.
pub fn keeps_its_pool()
    ensures { KeepsItsPool }
{}

/// A hold can be spent after any calls of `Memory`, and others that leave the pass its holds.
pub fn a_hold_lasts()
    ensures { HoldLasts }
{}

/// An arena that the pass has a hold or a handle of is alive, and no call of a memory's finds it shut: `get` and its kin
/// are never refused `Closed`, which only a visit that found the arena shut tells.
pub fn what_is_held_is_open()
    ensures { HeldIsOpen }
{}

/// A handle can be used after any calls of `Memory`, and others that leave the pass its handles.
pub fn a_handle_lasts()
    ensures { HandleLasts }
{}

/// A pass that has no hold, handle or close has none after any calls of `Memory`, nor after it met what another pass had
/// seen; and so its pool can gather it, and its number comes back.
pub fn a_worker_can_be_gathered()
    ensures { WorkerLasts }
{}
