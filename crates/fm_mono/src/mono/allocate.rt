ghost use Rattle.std.specs.Prelude.{◌≡◌, ◌<◌, None, true, Err};
ghost use Rattle.fm_base.specs.Arenas.{Alive, has_arena, arena_of};
ghost use Rattle.fm_base.specs.Learnt.{CanVisit, AfterAllocate};
ghost use Rattle.fm_base.specs.Machine.{IsPower};
ghost use Rattle.fm_mono.specs.Shown.{Allots, WantsWords, view_of, nature_of_mono};

use super::Mono;
use fm_base::{ArenaId, Refusal, round_up};

impl Mono {
    /// Gives `size` bytes at the next place that is a multiple of `align`, as `allocate` does. It waits for nobody.
    ///
    /// Refused, in this order: `BadAlignment`, `Closed`, `NoRoom`, `Memory`. A refused call gives nothing. It takes memory
    /// only where the bytes need more words than those given before.
    pub fn allot(&mut self, id: ArenaId, size: u64, align: u64) -> Result<u64, Refusal>
        requires { CanVisit (view_of self.old) id }
        ensures got { AfterAllocate nature_of_mono (view_of self.old) (view_of self.new) id size align result }
        ensures wants { result ≡ Err Refusal.Memory → WantsWords self.old id size align }
    {
        let alive = self.is_alive(id);
        if !align.is_power_of_two() {
            return Err(Refusal::BadAlignment);
        }
        if !alive {
            return Err(Refusal::Closed);
        }
        self.grow(id, size, align)
    }

    /// Gives bytes of an arena that is alive. Each word is zeroed once, when its first byte is given.
    fn grow(&mut self, id: ArenaId, size: u64, align: u64) -> Result<u64, Refusal>
        requires outside { self.old.inside ≡ None }
        requires known { has_arena self.old.state id ≡ true }
        requires alive { (arena_of self.old.state id).life ≡ Alive }
        requires power { IsPower align }
        ensures got { Allots self.old id size align result self.new }
        ensures wants { result ≡ Err Refusal.Memory → WantsWords self.old id size align }
    {
        let limit = self.limit;
        let arena = &mut self.arenas[id.slot as usize];
        let given = arena.given;
        let place = round_up(given, align);
        let end = place + u128::from(size);
        if end > u128::from(limit) {
            return Err(Refusal::NoRoom(given));
        }
        let end = end as u64;
        arena.words.resize(((end + 7) / 8) as usize, 0)?;
        arena.given = end;
        Ok(place as u64)
    }
}
