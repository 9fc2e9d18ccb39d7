use fm_arena::Shared;
use fm_base::ArenaId;
use fm_io::Files;
use fm_top_load::{LoadFault, Portion, Reached, Room, Stretch, put_stretch};
use fm_workers_crew::Beside;
use std::sync::Wait;

/// A stretch of a file that the first pass puts into an arena while a crew is at work.
#[derive(Drop)]
pub(crate) struct Putting<'a> {
    pub(crate) stretch: Stretch<'a>,
    /// Its first bytes, which were read.
    pub(crate) portion: Portion,
    /// The arena has given room for the stretch.
    pub(crate) arena: ArenaId,
    /// What came of it, once it was tried.
    pub(crate) put: Option<Result<Reached, LoadFault>>,
}

/// Puts the stretch to the arena's start.
impl<'a, F: Files> Beside<F> for Putting<'a> {
    ghost use Rattle.fm_top_stream.specs.Ahead.{CanPut, PutsAhead, can_put_later};

    ghost can = { λ x v files. CanPut (F.view files).holds x v };

    ghost does = { λ x y old new. PutsAhead (F.view old) (F.view new) x y };

    fn act<R: Wait>(&mut self, rt: &R, files: &mut F, memory: &mut Shared) {
        let stretch = self.stretch;
        let room = Room::Given(self.arena);
        let put = put_stretch(rt, files, &stretch, &mut self.portion, memory, room);
        self.put = Some(put);
    }

    ghost stays = { λ x p q files same. can_put_later (F.view files).holds x p q };
}
