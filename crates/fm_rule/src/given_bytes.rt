//! The bytes that the arenas of a finished pool have given.
ghost use Rattle.std.specs.Prelude.{◌≡◌, ◌⊎◌, ◌<◌, ◌/◌, ◌%◌, slice_index, IfOk, IfErr, IfSome, IsSome, IsTrue, ◌↔◌, true};
ghost use Rattle.fm_base.specs.declared.refusal.Refusal.TheVariants.{Memory};
ghost use Rattle.fm_base.specs.Arenas.{Alive, arena_of, has_arena, word_in};
ghost use Rattle.fm_base_bytes.specs.Words.{byte_of};
ghost use Rattle.fm_words.specs.Places.{words};
ghost use Rattle.fm_rule_facts.specs.Views.{Fits};
ghost use Rattle.fm_rule.specs.GivenBytes.{TellsAlive, HasBytes, given_bytes, state_of};

use crate::finishing::Finished;
use crate::words::alive_holds;
use fm_base::{ArenaId, Refusal};
use fm_words::Shape;
use std::alloc::{AllocError, Global};

impl Finished {
    /// The bytes that the arena, which was opened in the history, has given; None exactly where it isn't alive. Words tell
    /// arenas of one slot and generation apart by the history alone.
    ///
    /// Refused: `Memory`.
    pub fn bytes_of(&self, alloc: Global, id: ArenaId) -> Result<Option<Vec<u8>>, Refusal>
        requires { has_arena (state_of self.now) id ≡ true }
        ensures alive { IfOk result (λ o. IsSome o ↔ ((arena_of (state_of self.now) id).life ≡ Alive)) }
        ensures bytes { IfOk result (λ o. IfSome o (λ bytes. bytes.items ≡ given_bytes self.now id)) }
        ensures memory { IfErr result (λ e. e ≡ Memory) }
    {
        if !self.shows_alive(id) {
            return Ok(None);
        }
        let bytes = self.collect(alloc, id)?;
        Ok(Some(bytes))
    }

    /// Whether the arena is alive.
    fn shows_alive(&self, id: ArenaId) -> bool
        requires { has_arena (state_of self.now) id ≡ true }
        ensures { TellsAlive self.now id result }
    {
        let shape = self.shape;
        if !can_have(shape, id) {
            return false;
        }
        let word = self.word(shape.session_place(id.slot));
        match alive_holds(id, word) {
            Some(_) => true,
            None => false,
        }
    }

    fn word(&self, place: u64) -> u64
        requires { place < words self.now.shape }
        ensures { result ≡ slice_index self.now.words place }
    {
        self.table.word(place as usize)
    }

    /// The word with byte `k` that the arena has given.
    fn word_with(&self, id: ArenaId, k: u64) -> u64
        requires has { HasBytes self.now id }
        requires low { k < (arena_of (state_of self.now) id).given }
        ensures { result ≡ word_in (state_of self.now) id (k / 8) }
    {
        let size = u64::from(self.shape.page_words);
        let part = k / 8 / size;
        let page = self.word(self.shape.map_place(id.slot, part as u32)) - 1;
        self.word(self.shape.page_place(page as u32, (k / 8 % size) as u32))
    }

    /// The word with byte `k` that the arena has given, where this is the word with the byte before it: each word is
    /// looked up once.
    #[inline(always)]
    fn word_after(&self, id: ArenaId, k: u64, last: u64) -> u64
        requires has { HasBytes self.now id }
        requires low { k < (arena_of (state_of self.now) id).given }
        requires last { (k % 8 ≡ 0) ⊎ (last ≡ word_in (state_of self.now) id (k / 8)) }
        ensures { result ≡ word_in (state_of self.now) id (k / 8) }
    {
        if k % 8 == 0 {
            self.word_with(id, k)
        } else {
            last
        }
    }

    /// The bytes that an arena has given that is alive.
    fn collect(&self, alloc: Global, id: ArenaId) -> Result<Vec<u8>, AllocError>
        requires { HasBytes self.now id }
        ensures { IfOk result (λ bytes. bytes.items ≡ given_bytes self.now id) }
    {
        let given = self.word(self.shape.given_place(id.slot));
        let mut bytes = Vec::new(alloc);
        let mut word = 0;
        for k in 0..given {
            word = self.word_after(id, k, word);
            let byte = ((word >> (8 * (k % 8))) % 256) as u8;
            bytes.push(byte)?;
        }
        Ok(bytes)
    }
}

/// Whether a pool of this shape can have had an arena of this name.
fn can_have(z: Shape, id: ArenaId) -> bool
    ensures { IsTrue result ↔ Fits z id }
{
    id.slot < z.slots && id.owner < z.passes && id.generation < z.generations
}
