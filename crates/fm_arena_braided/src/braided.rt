use crate::turn::Turn;
use fm_base::{ArenaId, Caller, Kind, Memory, OrRefused};
use std::sync::Wait;

/// A memory before whose calls somebody else has a turn.
///
/// The calls `enter`, `load`, `store`, `swap_if`, `add`, `patch` and `leave` are numbered from 0; before each the turn of
/// its number comes. Each word of `load_words` and of `store_words` is a `load` or a `store` of its own, and has a turn.
/// The number 18,446,744,073,709,551,615 is the last, and all calls behind it have it too.
///
/// Before `caller`, `open_arena`, `allocate` and `close` no turn comes, and none of them is counted.
///
/// It refuses what the memory refuses, and takes no memory of its own. Others use its arenas, so nothing that holds of an
/// only caller holds of its caller.
pub struct Braided<M: Memory, T: Turn> {
    memory: M,
    turn: T,
    calls: u64,
}

impl<M: Memory, T: Turn> Braided<M, T> {
    ghost use Rattle.std.specs.Prelude.{◌≡◌};
    ghost use Rattle.fm_arena_braided.specs.Turns.{HadTurn};

    /// The memory, with no call made yet.
    pub fn new(m: M, turn: T) -> Braided<M, T>
        ensures { result ≡ record { memory = m; turn = turn; calls = 0 } }
    {
        Braided {
            memory: m,
            turn,
            calls: 0,
        }
    }

    /// The memory and the turn, as they are now.
    pub fn into_parts(self) -> (M, T)
        ensures memory { result.0 ≡ self.memory }
        ensures turn { result.1 ≡ self.turn }
    {
        let Braided {
            memory,
            turn,
            calls: _,
        } = self;
        (memory, turn)
    }

    /// The turn before the next numbered call, which is counted.
    #[inline(always)]
    fn give_turn(&mut self)
        ensures memory { self.new.memory ≡ self.old.memory }
        ensures turn { HadTurn T.turns self.old.turn self.old.calls self.new.turn self.new.calls }
    {
        self.turn.turn(self.calls);
        self.calls = self.calls.saturating_add(1);
    }
}

impl<M: Memory, T: Turn> Memory for Braided<M, T> {
    ghost use Rattle.std.specs.Prelude.{◌≡◌, refl, IsSome, length};
    ghost use Rattle.fm_base.specs.Calls as machine;
    ghost use Rattle.fm_base.specs.Does.{CanReach, CanReachAll};
    ghost use Rattle.fm_base.specs.Learnt.{CanVisit, CanOpen, CanPatch, AfterEnter, AfterLoads, AfterStores, AfterLeave, AfterOpen, AfterAllocate, AfterClose};
    ghost use Rattle.fm_arena_braided.specs.Turns.{Acted, HadTurn, InTurns, LoadedInTurn, Patched, StoredInTurn, beside, nature_beside};

    ghost nature = { nature_beside M.nature };

    ghost view = { λ b. beside (M.view b.memory) };

    fn caller(&self) -> Caller {
        self.memory.caller()
    }

    fn enter(&mut self, id: ArenaId) -> OrRefused<()>
        requires { CanVisit (beside (M.view self.old.memory)) id }
        ensures does { AfterEnter (beside (M.view self.old.memory))
            (beside (M.view self.new.memory)) id result }
        ensures turn { HadTurn T.turns self.old.turn self.old.calls self.new.turn self.new.calls }
    {
        self.give_turn();
        self.memory.enter(id)
    }

    fn load(&mut self, word: u64) -> u64
        requires { CanReach (beside (M.view self.old.memory)) word }
        ensures does { Acted M.view self.old.memory self.new.memory
            (λ id. machine.Read id word) (machine.Found result) }
        ensures turn { HadTurn T.turns self.old.turn self.old.calls self.new.turn self.new.calls }
    {
        self.give_turn();
        self.memory.load(word)
    }

    #[tactic(auto, using(crate::proofs::Turns::in_turns))]
    fn load_words(&mut self, first: u64, words: &mut [u64])
        requires { CanReachAll (beside (M.view self.old.memory)) first (length words.old) }
        ensures does { AfterLoads (beside (M.view self.old.memory))
            (beside (M.view self.new.memory)) first words.new }
        ensures turns { InTurns self.old self.new (length words.new)
            (LoadedInTurn M.view T.turns first words.new) }
    {
        // Where there is no word, no load says that the memory is sound.
        self.caller();
        for k in 0..words.len() {
            words[k] = self.load(first + k as u64);
        }
    }

    fn store(&mut self, word: u64, v: u64)
        requires { CanReach (beside (M.view self.old.memory)) word }
        ensures does { Acted M.view self.old.memory self.new.memory
            (λ id. machine.Write id word v) machine.Fine }
        ensures turn { HadTurn T.turns self.old.turn self.old.calls self.new.turn self.new.calls }
    {
        self.give_turn();
        self.memory.store(word, v);
    }

    #[tactic(auto, using(crate::proofs::Turns::in_turns))]
    fn store_words(&mut self, first: u64, words: &[u64])
        requires { CanReachAll (beside (M.view self.old.memory)) first (length words.now) }
        ensures does { AfterStores (beside (M.view self.old.memory))
            (beside (M.view self.new.memory)) first words.now }
        ensures turns { InTurns self.old self.new (length words.now)
            (StoredInTurn M.view T.turns first words.now) }
    {
        // Where there is no word, no store says that the memory is sound.
        self.caller();
        for k in 0..words.len() {
            self.store(first + k as u64, words[k]);
        }
    }

    fn swap_if(&mut self, word: u64, old: u64, new: u64) -> u64
        requires { CanReach (beside (M.view self.old.memory)) word }
        ensures does { Acted M.view self.old.memory self.new.memory
            (λ id. machine.SwapIf id word old new) (machine.Found result) }
        ensures turn { HadTurn T.turns self.old.turn self.old.calls self.new.turn self.new.calls }
    {
        self.give_turn();
        self.memory.swap_if(word, old, new)
    }

    fn add(&mut self, word: u64, n: u64) -> u64
        requires { CanReach (beside (M.view self.old.memory)) word }
        ensures does { Acted M.view self.old.memory self.new.memory
            (λ id. machine.Add id word n) (machine.Found result) }
        ensures turn { HadTurn T.turns self.old.turn self.old.calls self.new.turn self.new.calls }
    {
        self.give_turn();
        self.memory.add(word, n)
    }

    fn patch<R: Wait>(&mut self, rt: &R, word: u64, mask: u64, bits: u64) -> u64
        requires { CanPatch (beside (M.view self.old.memory)) word mask bits }
        ensures does { Patched M.view self.old.memory self.new.memory word mask bits result }
        ensures turn { HadTurn T.turns self.old.turn self.old.calls self.new.turn self.new.calls }
    {
        self.give_turn();
        self.memory.patch(rt, word, mask, bits)
    }

    fn leave(&mut self)
        requires { IsSome (beside (M.view self.old.memory)).inside }
        ensures does { AfterLeave (beside (M.view self.old.memory))
            (beside (M.view self.new.memory)) }
        ensures turn { HadTurn T.turns self.old.turn self.old.calls self.new.turn self.new.calls }
    {
        self.give_turn();
        self.memory.leave();
    }

    fn open_arena<R: Wait>(&mut self, rt: &R, kind: Kind) -> OrRefused<ArenaId>
        requires { CanOpen (beside (M.view self.old.memory)) kind }
        ensures does { AfterOpen (nature_beside M.nature) (beside (M.view self.old.memory))
            (beside (M.view self.new.memory)) kind result }
        ensures turn { self.new.turn ≡ self.old.turn }
        ensures calls { self.new.calls ≡ self.old.calls }
    {
        self.memory.open_arena(rt, kind)
    }

    fn allocate<R: Wait>(&mut self, rt: &R, id: ArenaId, size: u64, align: u64) -> OrRefused<u64>
        requires { CanVisit (beside (M.view self.old.memory)) id }
        ensures does { AfterAllocate (nature_beside M.nature) (beside (M.view self.old.memory))
            (beside (M.view self.new.memory)) id size align result }
        ensures turn { self.new.turn ≡ self.old.turn }
        ensures calls { self.new.calls ≡ self.old.calls }
    {
        self.memory.allocate(rt, id, size, align)
    }

    fn close<R: Wait>(&mut self, rt: &R, id: ArenaId) -> OrRefused<()>
        requires { CanVisit (beside (M.view self.old.memory)) id }
        ensures does { AfterClose (beside (M.view self.old.memory))
            (beside (M.view self.new.memory)) id result }
        ensures turn { self.new.turn ≡ self.old.turn }
        ensures calls { self.new.calls ≡ self.old.calls }
    {
        self.memory.close(rt, id)
    }

    ghost alone_is = { λ b. refl };
}
