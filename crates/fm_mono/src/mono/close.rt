ghost use Rattle.std.specs.Prelude.{◌≡◌, None, true};
ghost use Rattle.fm_base.specs.Arenas.{Alive, has_arena, arena_of, changed};
ghost use Rattle.fm_base.specs.Learnt.{CanVisit, AfterClose};
ghost use Rattle.fm_base.specs.Machine.{ended};
ghost use Rattle.fm_mono.specs.Shown.{view_of};

use super::Mono;
use crate::arena::Words;
use boxcar::tag::Tag;
use fm_base::{ArenaId, Refusal};

impl Mono {
    /// Ends the arena, as `close` does. It waits for nobody.
    ///
    /// Refused, in this order: `CannotClose`, `Closed`. A refused call changes nothing.
    pub fn end(&mut self, id: ArenaId) -> Result<(), Refusal>
        requires { CanVisit (view_of self.old) id }
        ensures { AfterClose (view_of self.old) (view_of self.new) id result }
    {
        let alive = self.is_alive(id);
        if !id.kind.is_closable() {
            return Err(Refusal::CannotClose(id.kind));
        }
        if !alive {
            return Err(Refusal::Closed);
        }
        self.finish(id);
        Ok(())
    }

    /// Ends an arena, and gives its words back at once.
    fn finish(&mut self, id: ArenaId)
        requires outside { self.old.inside ≡ None }
        requires known { has_arena self.old.state id ≡ true }
        requires alive { (arena_of self.old.state id).life ≡ Alive }
        ensures after { self.new ≡ record self.old { state = changed self.old.state id ended } }
        ensures holds { (arena_of self.old.state id).holds ≡ 0 }
    {
        let alloc = self.alloc;
        let arena = &mut self.arenas[id.slot as usize];
        arena.past = Tag::of::<Vec<u64>, Words>(&arena.words);
        arena.words = Vec::new(alloc);
        arena.is_alive = false;
    }
}
