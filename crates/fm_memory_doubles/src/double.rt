ghost use Rattle.std.specs.Prelude.{◌≡◌, ◌≢◌, ◌++◌, ◌∷◌, [], IsTrue};
ghost use Rattle.fm_memory_doubles.specs.Heard.{inside_by};

use crate::heard::Heard;
use crate::others::Others;
use fm_base::{ArenaId, Caller, Kind, Memory, OrRefused, Refusal};
use fm_mono::Mono;
use std::alloc::Global;
use std::marker::Model;
use std::sync::Wait;

/// The arenas of a `Mono`, as one of several callers uses them, and the whole history: each entry is kept, those of
/// the others too. A call that finds no memory for its entries never returns.
#[derive(Drop)]
pub struct Double<'a, H: Wait> {
    rt: &'a H,
    mono: Mono,
    others: Others,
    heard: Vec<Heard>,
    inside: Option<ArenaId>,
    // how many of the calls came between which the others may come
    turn: u32,
}

impl<'a, H: Wait> Model for Double<'a, H> {
    ghost use Rattle.fm_memory_doubles.specs.Double.{Doubled, doubled, IsDouble};

    ghost Value = { Doubled };

    ghost view = { λ d. doubled d.mono d.others d.heard.items };

    ghost invariant = { λ d. IsDouble (doubled d.mono d.others d.heard.items) d.inside };
}

/// Keeps what a call made. Where memory is wanting it never returns.
fn hear<R: Wait>(rt: &R, heard: &mut Vec<Heard>, what: Heard)
    ensures { heard.new.items ≡ heard.old.items ++ what ∷ [] }
{
    if heard.push(what).is_err() {
        for _ in rt.forever() {}
        unreachable!()
    }
}

/// The arena that the caller is inside after an `enter`.
fn entered_by(id: ArenaId, answer: Result<(), Refusal>) -> Option<ArenaId>
    ensures { result ≡ inside_by id answer }
{
    match answer {
        Ok(()) => Some(id),
        Err(_) => None,
    }
}

/// Whether every caller may use an arena of this kind.
fn is_for_all(kind: Kind) -> bool
    ensures { IsTrue result → kind ≢ Kind.Confined }
{
    !matches!(kind, Kind::Confined)
}

impl<'a, H: Wait> Double<'a, H> {
    ghost use Rattle.std.specs.Prelude.{◌≡◌, ◌≤◌, ◌^◌, [], None, Some, IsSome};
    ghost use Rattle.fm_base.specs.Does.{CanReach};
    ghost use Rattle.fm_base.specs.Learnt.{CanVisit};
    ghost use Rattle.fm_base.specs.View.{Makes, IsSound};
    ghost use Rattle.fm_mono.specs.Shown.{view_of};
    ghost use Rattle.fm_memory_doubles.specs.Double.{double_view};

    /// No arenas yet.
    #[tactic(auto, using(crate::proofs::Beside::starts))]
    pub fn new(rt: &'a H, alloc: Global, mono: Mono, others: Others) -> Double<'a, H>
        requires outside { mono.inside ≡ None }
        requires empty { mono.state ≡ [] }
        requires small { mono.limit ≤ 2 ^ 40 }
        ensures outside { result.mono.inside ≡ None }
        ensures others { result.others ≡ others }
    {
        Double {
            rt,
            mono,
            others,
            heard: Vec::new(alloc),
            inside: None,
            turn: 0,
        }
    }

    /// The arena that was entered.
    fn entered(&self) -> ArenaId
        requires { IsSome self.now.mono.inside }
        ensures { self.now.mono.inside ≡ Some result }
    {
        match self.inside {
            Some(a) => a,
            None => unreachable!(),
        }
    }

    /// What another does before this caller's call on a word.
    fn come_to(&mut self, word: u64)
        requires { CanReach (double_view self.old) word }
        ensures makes { Makes (double_view self.old) (double_view self.new) [] }
        ensures reach { CanReach (view_of self.new.mono) word }
        ensures sound { IsSound (double_view self.old) }
    {
        let a = self.entered();
        if let Others::Add { script, step } = self.others {
            let turn = self.turn;
            self.turn = turn.wrapping_add(1);
            if script.rotate_right(turn) & 1 == 1 {
                if is_for_all(a.kind) {
                    let visitor = Caller { number: 1, term: 0 };
                    let found = self.mono.add(word, step);
                    let visit = Heard::Visit(visitor, a, word, step, found);
                    hear(self.rt, &mut self.heard, visit);
                }
            }
        }
    }

    /// What another does before this caller enters the arena.
    fn come_before(&mut self, id: ArenaId)
        requires { CanVisit (view_of self.old.mono) id }
        ensures makes { Makes (double_view self.old) (double_view self.new) [] }
        ensures can { CanVisit (view_of self.new.mono) id }
        ensures sound { IsSound (double_view self.old) }
    {
        if let Others::Close { left } = self.others {
            self.turn = self.turn.wrapping_add(1);
            if self.turn == left {
                if is_for_all(id.kind) {
                    let closer = Caller { number: 1, term: 0 };
                    let answer = self.mono.end(id);
                    let close = Heard::Close(closer, id, answer);
                    hear(self.rt, &mut self.heard, close);
                }
            }
        }
    }
}

impl<'a, H: Wait> Memory for Double<'a, H> {
    ghost use Rattle.std.specs.Prelude.{refl};
    ghost use Rattle.fm_memory_doubles.specs.Double.{double_view, nature_of_double};

    ghost nature = { nature_of_double };

    ghost view = { double_view };

    fn caller(&self) -> Caller {
        self.mono.caller()
    }

    fn enter(&mut self, id: ArenaId) -> OrRefused<()> {
        self.come_before(id);
        let answer = self.mono.enter(id);
        hear(self.rt, &mut self.heard, Heard::Enter(id, answer));
        self.inside = entered_by(id, answer);
        answer
    }

    fn load(&mut self, word: u64) -> u64 {
        self.come_to(word);
        let a = self.entered();
        let found = self.mono.load(word);
        hear(self.rt, &mut self.heard, Heard::Load(a, word, found));
        found
    }

    fn store(&mut self, word: u64, v: u64) {
        self.come_to(word);
        let a = self.entered();
        self.mono.store(word, v);
        hear(self.rt, &mut self.heard, Heard::Store(a, word, v));
    }

    fn swap_if(&mut self, word: u64, old: u64, new: u64) -> u64 {
        self.come_to(word);
        let a = self.entered();
        let found = self.mono.swap_if(word, old, new);
        let swap = Heard::SwapIf(a, word, old, new, found);
        hear(self.rt, &mut self.heard, swap);
        found
    }

    fn add(&mut self, word: u64, n: u64) -> u64 {
        self.come_to(word);
        let a = self.entered();
        let found = self.mono.add(word, n);
        hear(self.rt, &mut self.heard, Heard::Add(a, word, n, found));
        found
    }

    fn patch<R: Wait>(&mut self, rt: &R, word: u64, mask: u64, bits: u64) -> u64 {
        self.come_to(word);
        let a = self.entered();
        let found = self.mono.patch(rt, word, mask, bits);
        let swap = Heard::SwapIf(a, word, found, found & !mask | bits, found);
        hear(self.rt, &mut self.heard, swap);
        found
    }

    fn leave(&mut self) {
        let a = self.entered();
        self.mono.leave();
        hear(self.rt, &mut self.heard, Heard::Leave(a));
        self.inside = None;
    }

    fn open_arena<R: Wait>(&mut self, rt: &R, kind: Kind) -> OrRefused<ArenaId> {
        let answer = self.mono.open_arena(rt, kind);
        hear(self.rt, &mut self.heard, Heard::Open(answer));
        answer
    }

    fn allocate<R: Wait>(&mut self, rt: &R, id: ArenaId, size: u64, align: u64) -> OrRefused<u64> {
        let answer = self.mono.allocate(rt, id, size, align);
        let given = Heard::Allocate(id, size, align, answer);
        hear(self.rt, &mut self.heard, given);
        answer
    }

    fn close<R: Wait>(&mut self, rt: &R, id: ArenaId) -> OrRefused<()> {
        let answer = self.mono.close(rt, id);
        let caller = self.mono.caller();
        hear(self.rt, &mut self.heard, Heard::Close(caller, id, answer));
        answer
    }

    ghost alone_is = { λ m. refl };
}
