ghost use Rattle.std.specs.Prelude.{◌≡◌, ◌↔◌, Err, length, refl};
ghost use Rattle.fm_base.specs.Learnt.{CanVisit, CanOpen, AfterOpen, AfterAllocate};
ghost use Rattle.fm_mono.specs.Shown.{WantsWords, most_arenas, view_of, nature_of_mono};

use super::Mono;
use fm_base::{ArenaId, Caller, Kind, Memory, OrRefused, Refusal};
use std::sync::Wait;

/// No call waits: those that may are handed on to calls of `Mono` without a runtime. Memory is taken by `open_arena`, and
/// by `allocate` where the bytes need more words; no other call can answer that it is wanting.
impl Memory for Mono {
    ghost nature = { nature_of_mono };

    ghost view = { view_of };

    fn caller(&self) -> Caller {
        let _ = &self.limit;
        Caller { number: 0, term: 0 }
    }

    fn enter(&mut self, id: ArenaId) -> OrRefused<()> {
        if self.is_alive(id) {
            self.come_in(id);
            Ok(())
        } else {
            Err(Refusal::Closed)
        }
    }

    fn load(&mut self, word: u64) -> u64 {
        self.word(word)
    }

    fn load_words(&mut self, first: u64, words: &mut [u64]) {
        self.get_words(first, words);
    }

    fn store(&mut self, word: u64, v: u64) {
        self.put(word, v);
    }

    fn store_words(&mut self, first: u64, words: &[u64]) {
        self.put_words(first, words);
    }

    fn swap_if(&mut self, word: u64, old: u64, new: u64) -> u64 {
        let found = self.word(word);
        if found == old {
            self.put(word, new);
        }
        found
    }

    fn add(&mut self, word: u64, n: u64) -> u64 {
        let found = self.word(word);
        self.put(word, found.wrapping_add(n));
        found
    }

    fn patch<R: Wait>(&mut self, rt: &R, word: u64, mask: u64, bits: u64) -> u64 {
        self.put_bits(word, mask, bits)
    }

    fn leave(&mut self) {
        self.go_out();
    }

    fn open_arena<R: Wait>(&mut self, rt: &R, kind: Kind) -> OrRefused<ArenaId>
        requires { CanOpen (view_of self.old) kind }
        ensures got { AfterOpen nature_of_mono (view_of self.old) (view_of self.new) kind result }
        ensures full { (result ≡ Err Refusal.NoSlot) ↔ (length self.old.state ≡ most_arenas) }
    {
        self.open(kind)
    }

    fn allocate<R: Wait>(&mut self, rt: &R, id: ArenaId, size: u64, align: u64) -> OrRefused<u64>
        requires { CanVisit (view_of self.old) id }
        ensures got { AfterAllocate nature_of_mono (view_of self.old) (view_of self.new) id size align result }
        ensures wants { result ≡ Err Refusal.Memory → WantsWords self.old id size align }
    {
        self.allot(id, size, align)
    }

    fn close<R: Wait>(&mut self, rt: &R, id: ArenaId) -> OrRefused<()> {
        self.end(id)
    }

    ghost alone_is = { λ m. refl };
}
