ghost use Rattle.std.specs.Prelude.{◌≡◌, ◌↔◌, Err, length};
ghost use Rattle.fm_base.specs.Learnt.{CanOpen, AfterOpen};
ghost use Rattle.fm_mono.specs.Shown.{view_of, nature_of_mono, most_arenas};

use super::Mono;
use crate::arena::MonoArena;
use boxcar::tag::Tag;
use fm_base::{ArenaId, Kind, Refusal};

/// How many arenas a `Mono` can open.
const MOST_ARENAS: usize = 4_294_967_295;

impl Mono {
    /// Opens an arena, as `open_arena` does. It waits for nobody.
    ///
    /// Refused: `NoSlot`, exactly where 4,294,967,295 arenas were opened, or `Memory`. A refused call opens nothing.
    pub fn open(&mut self, kind: Kind) -> Result<ArenaId, Refusal>
        requires { CanOpen (view_of self.old) kind }
        ensures got { AfterOpen nature_of_mono (view_of self.old) (view_of self.new) kind result }
        ensures full { (result ≡ Err Refusal.NoSlot) ↔ (length self.old.state ≡ most_arenas) }
    {
        let slot = self.arenas.len();
        if slot == MOST_ARENAS {
            return Err(Refusal::NoSlot);
        }
        let id = ArenaId {
            slot: slot as u32,
            generation: 0,
            kind,
            owner: 0,
            term: 0,
        };
        let arena = MonoArena {
            id,
            is_alive: true,
            given: 0,
            words: Vec::new(self.alloc),
            past: Tag::empty(),
        };
        match self.arenas.push(arena) {
            Ok(()) => {}
            Err(_) => return Err(Refusal::Memory),
        }
        Ok(id)
    }
}
