ghost use Rattle.std.specs.Prelude.{◌≡◌, true, false};
ghost use Rattle.fm_base.specs.Arenas.{MayUse};

use fm_base::{ArenaId, Memory};

/// Whether the memory's caller may use the arena.
pub fn may_use<M: Memory>(m: &M, arena: ArenaId) -> bool
    ensures yes { result ≡ true → MayUse arena (M.view m.now).caller }
    ensures no { result ≡ false → ¬ (MayUse arena (M.view m.now).caller) }
{
    arena.may_be_used_by(m.caller())
}
