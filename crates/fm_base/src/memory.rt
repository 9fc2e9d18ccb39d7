ghost use Rattle.std.specs.Prelude.{◌≡◌, IsSome, length};
ghost use Rattle.fm_base.specs.Calls as machine;
ghost use Rattle.fm_base.specs.View.{View, IsSound};
ghost use Rattle.fm_base.specs.Does.{CanReach, CanReachAll};
ghost use Rattle.fm_base.specs.Learnt.{CanVisit, CanOpen, CanPatch, AfterEnter, AfterAct, AfterLoads, AfterStores, AfterPatch, AfterLeave, AfterOpen, AfterAllocate, AfterClose};
ghost use Rattle.fm_base.specs.Outcomes.{Nature};

use crate::arena_id::ArenaId;
use crate::caller::Caller;
use crate::kind::Kind;
use crate::refusal::OrRefused;
use std::sync::Wait;

/// Arenas as one caller uses them: segments, handles and queries are written over this trait alone.
///
/// A caller enters an arena, acts on its words, and leaves it. Word w of an arena holds the places 8w to 8w + 7,
/// the lowest byte first. Each call makes its entries in the history of the one-thread machine, in order and each with
/// the machine's reply. Entries of others may stand before, between and after them, unless the caller is by itself: no
/// other exists, or it is known that every other one was gathered into it. So a call says what its own entries were, and
/// what stays true whatever others do; only a caller by itself knows the state that a call leaves. After `open_arena`,
/// where others exist, the arena may already be shut.
///
/// A call that takes `rt` may wait for other callers; a call that doesn't take it waits for nobody.
pub trait Memory {
    /// Whether no other caller exists, and whether want of memory, `NoSlot` and `PoolFull` may come.
    ghost nature: { Nature };

    /// The arena limit in bytes, the machine's state as last seen, the caller, the arena that it entered,
    /// whether no other caller exists, and what is told of the history.
    ghost view: { Self → View };

    /// The caller that uses it.
    fn caller(&self) -> Caller
        ensures is { result ≡ (view self.now).caller }
        ensures sound { IsSound (view self.now) };

    /// Comes into the arena, in which it may act until it leaves.
    ///
    /// Refused, in this order: `WrongThread`, `Closed`. A refused caller stays outside.
    fn enter(&mut self, id: ArenaId) -> OrRefused<()>
        requires { CanVisit (view self.old) id }
        ensures { AfterEnter (view self.old) (view self.new) id result };

    /// The word of this index.
    fn load(&mut self, word: u64) -> u64
        requires { CanReach (view self.old) word }
        ensures { AfterAct (view self.old) (view self.new)
            (λ id. machine.Read id word) (machine.Found result) };

    /// Reads the words from the index `first` on into `words`, one after the other.
    ///
    /// A memory that loads a word at a time needs no other body than this one.
    fn load_words(&mut self, first: u64, words: &mut [u64])
        requires { CanReachAll (view self.old) first (length words.old) }
        ensures { AfterLoads (view self.old) (view self.new) first words.new }
    {
        // Where there is no word, no load says that the memory is sound.
        self.caller();
        for k in 0..words.len() {
            words[k] = self.load(first + k as u64);
        }
    }

    /// Puts `v` into the word of this index.
    fn store(&mut self, word: u64, v: u64)
        requires { CanReach (view self.old) word }
        ensures { AfterAct (view self.old) (view self.new)
            (λ id. machine.Write id word v) machine.Fine };

    /// Puts these words, the first of them at the index `first`, one after the other.
    ///
    /// A memory that stores a word at a time needs no other body than this one.
    fn store_words(&mut self, first: u64, words: &[u64])
        requires { CanReachAll (view self.old) first (length words.now) }
        ensures { AfterStores (view self.old) (view self.new) first words.now }
    {
        // Where there is no word, no store says that the memory is sound.
        self.caller();
        for k in 0..words.len() {
            self.store(first + k as u64, words[k]);
        }
    }

    /// Puts `new` into the word where it is `old`, and answers the word found.
    fn swap_if(&mut self, word: u64, old: u64, new: u64) -> u64
        requires { CanReach (view self.old) word }
        ensures { AfterAct (view self.old) (view self.new)
            (λ id. machine.SwapIf id word old new) (machine.Found result) };

    /// Adds `n` to the word, wrapping at 2^64, and answers the word found.
    fn add(&mut self, word: u64, n: u64) -> u64
        requires { CanReach (view self.old) word }
        ensures { AfterAct (view self.old) (view self.new)
            (λ id. machine.Add id word n) (machine.Found result) };

    /// Puts the word's bits under `mask` to `bits` in one step, and answers the word found at that step.
    ///
    /// It makes one or more tries. The last is an exchange that found what it expected.
    fn patch<R: Wait>(&mut self, rt: &R, word: u64, mask: u64, bits: u64) -> u64
        requires { CanPatch (view self.old) word mask bits }
        ensures { AfterPatch (view self.old) (view self.new) word mask bits result };

    /// Goes out of the arena that was entered.
    fn leave(&mut self)
        requires { IsSome (view self.old).inside }
        ensures { AfterLeave (view self.old) (view self.new) };

    /// Opens an arena of this kind, alive, of which nothing is given. Its name was never used before.
    ///
    /// Refused: `NoSlot`, or `Memory`. A refused call opens nothing. Automatic arenas are opened otherwise.
    fn open_arena<R: Wait>(&mut self, rt: &R, kind: Kind) -> OrRefused<ArenaId>
        requires { CanOpen (view self.old) kind }
        ensures { AfterOpen nature (view self.old) (view self.new) kind result };

    /// Gives `size` bytes at the next place that is a multiple of `align`, and answers that place.
    ///
    /// Refused, in this order: `BadAlignment`, `WrongThread`, `Closed`, `NoRoom`, `PoolFull`, `Memory`.
    /// A refused call gives nothing.
    fn allocate<R: Wait>(&mut self, rt: &R, id: ArenaId, size: u64, align: u64) -> OrRefused<u64>
        requires { CanVisit (view self.old) id }
        ensures { AfterAllocate nature (view self.old) (view self.new) id size align result };

    /// Ends the arena, once nobody is under way in it.
    ///
    /// Refused, in this order: `CannotClose`, `WrongThread`, `Closed`, `Held`. A refused call changes nothing.
    fn close<R: Wait>(&mut self, rt: &R, id: ArenaId) -> OrRefused<()>
        requires { CanVisit (view self.old) id }
        ensures { AfterClose (view self.old) (view self.new) id result };

    /// Whether the caller is alone is a constant of the type.
    ghost alone_is: { (m : Self) → (view m).alone ≡ nature.alone };
}
