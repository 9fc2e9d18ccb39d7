ghost use Rattle.std.specs.Prelude.{◌≡◌, ◌≤◌, ◌^◌, [], None};

mod allocate;
mod close;
mod memory;
mod open;
mod patch;

use crate::arena::MonoArena;
use fm_base::ArenaId;
use std::alloc::Global;
use std::marker::Model;

/// The arenas of one thread, each with a vector of words (`Arena`, Java SE 22).
///
/// It is the only caller, number 0 of term 0, and waits for nobody. An arena's slot is its place in the order of
/// opening, so a name never comes twice; an arena that was closed has given its words back.
/// The arena that was entered stands at the place `current`, so that acts look at no name and visits keep none.
#[derive(Drop)]
pub struct Mono {
    alloc: Global,
    limit: u64,
    arenas: Vec<MonoArena>,
    is_inside: bool,
    current: usize,
}

impl Model for Mono {
    ghost use Rattle.fm_mono.specs.Shown.{Arenas, IsKept, inside_of, seen_of};

    ghost Value = { Arenas };

    ghost view = { λ m. seen_of m.limit (inside_of m.is_inside m.current m.arenas.items) m.arenas.items };

    ghost invariant = { λ m. IsKept m.limit (inside_of m.is_inside m.current m.arenas.items) m.current m.arenas.items };
}

impl Mono {
    /// No arenas yet, each of which will give at most `limit` bytes. It takes no memory.
    pub fn make(alloc: Global, limit: u64) -> Mono
        requires { limit ≤ 2 ^ 40 }
        ensures { result ≡ record { limit = limit; state = []; inside = None } }
    {
        Mono {
            alloc,
            limit,
            arenas: Vec::new(alloc),
            is_inside: false,
            current: 0,
        }
    }
}

impl Mono {
    ghost use Rattle.std.specs.Prelude.{◌≡◌, ◌≤◌, ◌^◌, true, Some, None, IsSome, length, if◌then◌else◌};
    ghost use Rattle.fm_base.specs.Arenas.{only_caller, Alive, Ended, has_arena, arena_of, changed};
    ghost use Rattle.fm_base.specs.Does.{CanReach, CanReachAll};
    ghost use Rattle.fm_base.specs.Learnt.{CanVisit, AfterLoads, AfterStores};
    ghost use Rattle.fm_base.specs.Machine.{entered};
    ghost use Rattle.fm_mono.specs.Shown.{view_of, CanEnter, Finds, Puts, GoesOut};

    /// The word of this index.
    fn word(&self, word: u64) -> u64
        requires { CanReach (view_of self.now) word }
        ensures { Finds self.now word result }
    {
        self.arenas[self.current].words[word as usize]
    }

    fn put(&mut self, word: u64, v: u64)
        requires { CanReach (view_of self.old) word }
        ensures { Puts self.old self.new word v }
    {
        let arena = &mut self.arenas[self.current];
        arena.words[word as usize] = v;
    }

    /// Copies many words at once.
    fn get_words(&self, first: u64, into: &mut [u64])
        requires { CanReachAll (view_of self.now) first (length into.old) }
        ensures { AfterLoads (view_of self.now) (view_of self.now) first into.new }
    {
        let first = first as usize;
        let arena = &self.arenas[self.current];
        into.copy_from_slice(&arena.words[first..first + into.len()]);
    }

    /// Puts many words at once.
    fn put_words(&mut self, first: u64, words: &[u64])
        requires { CanReachAll (view_of self.old) first (length words.now) }
        ensures { AfterStores (view_of self.old) (view_of self.new) first words.now }
    {
        let first = first as usize;
        let arena = &mut self.arenas[self.current];
        arena.words[first..first + words.len()].copy_from_slice(words);
    }

    fn is_alive(&self, id: ArenaId) -> bool
        requires { CanVisit (view_of self.now) id }
        ensures life { (arena_of self.now.state id).life ≡ (if result then Alive else Ended) }
        ensures can { CanEnter self.now id }
        ensures small { self.now.limit ≤ 2 ^ 40 }
    {
        self.arenas[id.slot as usize].is_alive
    }

    fn come_in(&mut self, id: ArenaId)
        requires outside { self.old.inside ≡ None }
        requires known { has_arena self.old.state id ≡ true }
        requires alive { (arena_of self.old.state id).life ≡ Alive }
        ensures { self.new ≡ record self.old {
          state = changed self.old.state id (entered only_caller);
          inside = Some id;
        } }
    {
        self.current = id.slot as usize;
        self.is_inside = true;
    }

    fn go_out(&mut self)
        requires { IsSome self.old.inside }
        ensures { GoesOut self.old self.new }
    {
        self.is_inside = false;
    }
}
