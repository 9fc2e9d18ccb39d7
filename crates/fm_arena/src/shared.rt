ghost use Rattle.std.specs.Prelude.{◌≡◌, ◌<◌, ◌≤◌, length, take, None};

use crate::arena::Arena;
use fm_async::close_by_poll;
use fm_base::{ArenaId, Caller, Kind, Memory, OrRefused, Refusal};
use fm_close::close;
use fm_gate::{
    Hold, add, allocate, enter, hold, is_alive, leave, load, load_at, load_placed, open_arena,
    patch, store, store_at, store_placed, swap_if, unhold,
};
use fm_rule::{Note, Pass, Pool};
use fm_segment::Segment;
use std::alloc::AllocGlobal;
use std::marker::Model;
use std::random::RandomSource;
use std::sync::Wait;

/// The arenas of a pool, as one pass of it uses them.
///
/// It is a `Memory`: segments, handles and queries, which are written over that trait alone, run on it unchanged. Others
/// with passes of their own may use the same arenas, and close them. It tells the history that its pass has seen, what
/// the pass found and what it has. It can be moved to another thread, and no two threads use it at once.
#[derive(Drop)]
pub struct Shared<'a> {
    pub(crate) pool: &'a Pool,
    pub(crate) pass: Pass,
}

impl<'a> Model for Shared<'a> {
    ghost use Rattle.fm_rule_facts.specs.Views.{View};
    ghost use Rattle.fm_arena.specs.Shares.{IsHeld};

    ghost Value = { View };

    ghost view = { λ m. m.pass };

    ghost invariant = { λ m. IsHeld m.pool.now m.pass };
}

impl<'a> Shared<'a> {
    ghost use Rattle.std.specs.Prelude.{IfErr, IfOk};
    ghost use Rattle.fm_base.specs.declared.refusal.Refusal.TheVariants.{NoPass};
    ghost use Rattle.fm_base.specs.Does.{CanReachAll};
    ghost use Rattle.fm_base.specs.Learnt.{AfterClose, AfterLoads, AfterStores, CanOpen, CanVisit};
    ghost use Rattle.fm_rule.specs.Draws.{Drawn, Gathers, Looked, NoneDrawn};
    ghost use Rattle.fm_rule_calls.specs.Told.{view_of_pass};
    ghost use Rattle.fm_rule_facts.specs.Hands.{no_number};
    ghost use Rattle.fm_arena.specs.Allocating.{AllocatesExactly, AllocatesSegment};
    ghost use Rattle.fm_arena.specs.Arenas.{placed, started};
    ghost use Rattle.fm_arena.specs.Learnt.{AfterHold, AfterIntoPass, AfterIsAlive, AfterMeet, AfterUnhold, CanBeGathered, CanUnhold};
    ghost use Rattle.fm_arena.specs.Opening.{Opens, OpensExactly};
    ghost use Rattle.fm_arena.specs.Shares.{CanShare, IsGone};

    /// The memory of a pass that is in no arena, and has no page in its hand.
    pub fn new(pool: &'a Pool, pass: Pass) -> Shared<'a>
        requires { CanShare pool.now pass }
        ensures { result ≡ pass }
    {
        Shared { pool, pass }
    }

    /// The pass again, to draw another from it or to be gathered. It is in no arena, and has no page in its hand.
    pub fn into_pass(self) -> Pass
        requires { self.inside ≡ None }
        ensures { AfterIntoPass self.entry result }
    {
        let Shared { pool: _, pass } = self;
        // Any pass is sound, which its calls alone tell.
        let _caller = pass.caller();
        pass
    }

    /// What the pass has seen, to be met by another one of the pool.
    pub fn note(&mut self) -> Note
        ensures pass { self.new ≡ self.old }
        ensures note { result ≡ record { home = self.old.home; seen = self.old.seen } }
    {
        self.pool.note(&mut self.pass)
    }

    /// After it the pass has seen what both had seen: it knows the arenas that the other knew.
    pub fn meet(&mut self, note: Note)
        requires { note.home ≡ self.old.home }
        ensures { AfterMeet self.old self.new note.seen }
    {
        self.pool.meet(&mut self.pass, note);
    }

    /// A memory over another pass, which has a free number and that number's term, and has seen what this one has.
    ///
    /// Refused: `NoPass`, where every number was found taken, or no draw can be counted any more.
    pub fn draw<R: Wait>(&mut self, rt: &R) -> Result<Shared<'a>, Refusal>
        ensures drawn { IfOk result (λ other. Drawn self.old self.new other) }
        ensures no_pass { IfErr result (λ e. (e ≡ NoPass) × NoneDrawn self.old self.new) }
    {
        let pass = self.pool.draw(rt, &mut self.pass)?;
        Ok(Shared {
            pool: self.pool,
            pass,
        })
    }

    /// After it the pass has seen what both had seen, and has the other's caller and all that were gathered into it. The
    /// other's number is free again, with its next term, unless it had its last one.
    pub fn gather(&mut self, other: Shared)
        requires { CanBeGathered self.old other }
        ensures { Gathers self.old other.entry no_number self.new }
    {
        self.pool.gather(&mut self.pass, other.into_pass());
    }

    /// Whether every drawn caller but its own is gathered into the pass. Then what it has seen is the whole history.
    pub fn whole(&mut self) -> bool
        ensures { Looked self.old self.new result }
    {
        self.pool.whole(&mut self.pass)
    }

    /// Opens an arena of this kind, as `Arena::start`.
    ///
    /// Refused: `NoSlot`, where a step found no slot; a pass that is known to be whole gets it exactly where every slot
    /// has an arena that hasn't ended, or has had its last generation.
    pub fn start<R: Wait>(&mut self, rt: &R, kind: Kind) -> Result<Arena, Refusal>
        requires { CanOpen (view_of_pass self.old) kind }
        ensures opens { Opens self.old self.new kind (started result) }
        ensures exact { OpensExactly self.old self.new result }
    {
        let id = self.open_arena(rt, kind)?;
        Ok(Arena { id })
    }

    /// A segment of `size` bytes of the arena, as `Arena::allocate`.
    ///
    /// Refused, in this order: `BadAlignment`, `WrongThread`, `Closed`, `NoRoom`, `PoolFull`. The last one only where each
    /// word of page bits was 0 at a step; a pass that is known to be whole gets it exactly where fewer pages are left than
    /// parts of the range have none.
    pub fn allocate_segment<R: Wait>(
        &mut self,
        rt: &R,
        arena: &Arena,
        size: u64,
        align: u64,
    ) -> Result<Segment, Refusal>
        requires { CanVisit (view_of_pass self.old) arena.now.id }
        ensures allocates { AllocatesSegment self.old self.new arena.now.id size align result }
        ensures exact { AllocatesExactly self.old self.new arena.now.id size align (placed result) }
    {
        let first = self.allocate(rt, arena.id, size, align)?;
        Ok(Segment::of(arena.id, first, size))
    }

    /// Whether the arena is alive: a visit to it without acts.
    ///
    /// Refused: `WrongThread`.
    pub fn is_alive(&mut self, id: ArenaId) -> Result<bool, Refusal>
        requires { CanVisit (view_of_pass self.old) id }
        ensures { AfterIsAlive self.old self.new id result }
    {
        is_alive(self.pool, &mut self.pass, id)
    }

    /// Ends the arena as `close` does, by a future that `block_on` polls.
    ///
    /// Where there is no memory or no random number to poll with, it goes on by visits.
    ///
    /// Refused, in this order: `CannotClose`, `WrongThread`, `Closed`, `Held`. A refused call changes nothing.
    pub fn close_by_poll<R: Wait + RandomSource + AllocGlobal>(
        &mut self,
        rt: &R,
        id: ArenaId,
    ) -> OrRefused<()>
        requires { CanVisit (view_of_pass self.old) id }
        ensures closes { AfterClose (view_of_pass self.old) (view_of_pass self.new) id result }
        ensures gone { IfOk result (λ _. IsGone self.new id) }
    {
        close_by_poll(rt, self.pool, &mut self.pass, id)
    }

    /// Holds the arena: until the hold is spent nobody can shut it.
    ///
    /// Refused, in this order: `Unsupported`, `WrongThread`, `Closed`, `TooManyHolds`. A refused call changes nothing.
    pub fn hold<R: Wait>(&mut self, rt: &R, id: ArenaId) -> Result<Hold, Refusal>
        requires { CanVisit (view_of_pass self.old) id }
        ensures { AfterHold self.old self.new id result }
    {
        hold(rt, self.pool, &mut self.pass, id)
    }

    /// Reads words from the index `first` on, up to the end of the first one's page, and answers how many. Where the page
    /// stands is looked up once.
    fn load_page(&mut self, first: u64, words: &mut [u64]) -> usize
        requires some { 0 < length words.old }
        requires reach { CanReachAll (view_of_pass self.old) first (length words.old) }
        ensures loads { AfterLoads (view_of_pass self.old) (view_of_pass self.new) first (take result words.new) }
        ensures some { 0 < result }
        ensures within { result ≤ length words.old }
        ensures size { length words.new ≡ length words.old }
    {
        let (word, place) = load_placed(self.pool, &mut self.pass, first);
        words[0] = word;
        let size = u64::from(self.pool.shape().page_words);
        let count = (size - first % size).min(words.len() as u64) as usize;
        for k in 1..count {
            words[k] = load_at(
                self.pool,
                &mut self.pass,
                first + k as u64,
                place + k as u64,
            );
        }
        count
    }

    /// Puts words from the index `first` on, up to the end of the first one's page, and answers how many. Where the page
    /// stands is looked up once.
    fn store_page(&mut self, first: u64, words: &[u64]) -> usize
        requires some { 0 < length words.now }
        requires reach { CanReachAll (view_of_pass self.old) first (length words.now) }
        ensures stores { AfterStores (view_of_pass self.old) (view_of_pass self.new) first (take result words.now) }
        ensures some { 0 < result }
        ensures within { result ≤ length words.now }
    {
        let place = store_placed(self.pool, &mut self.pass, first, words[0]);
        let size = u64::from(self.pool.shape().page_words);
        let count = (size - first % size).min(words.len() as u64) as usize;
        for k in 1..count {
            store_at(
                self.pool,
                &mut self.pass,
                first + k as u64,
                place + k as u64,
                words[k],
            );
        }
        count
    }

    /// Spends a hold.
    pub fn unhold(&mut self, hold: Hold)
        requires { CanUnhold self.old hold }
        ensures { AfterUnhold self.old self.new hold.arena }
    {
        unhold(self.pool, &mut self.pass, hold);
    }
}

impl<'a> Memory for Shared<'a> {
    ghost use Rattle.std.specs.Prelude.{◌≢◌, Err, IfOk, refl};
    ghost use Rattle.fm_base.specs.declared.refusal.Refusal.TheVariants.{Closed};
    ghost use Rattle.fm_base.specs.Learnt.{AfterClose, AfterEnter, CanOpen, CanVisit};
    ghost use Rattle.fm_base.specs.View.{IsSound};
    ghost use Rattle.fm_rule_facts.specs.Views as views;
    ghost use Rattle.fm_rule_facts.specs.Views.{In, grips};
    ghost use Rattle.fm_rule_calls.specs.Told.{view_of_pass};
    ghost use Rattle.fm_arena.specs.Allocating.{Allocates, AllocatesExactly};
    ghost use Rattle.fm_arena.specs.Opening.{Opens, OpensExactly};
    ghost use Rattle.fm_arena.specs.Shares.{IsGone, nature_of_shared};

    ghost nature = { nature_of_shared };

    ghost view = { view_of_pass };

    /// As the trait says; and the pass is sound.
    fn caller(&self) -> Caller
        ensures is { result ≡ self.now.caller }
        ensures sound { IsSound (view_of_pass self.now) }
        ensures pass { views.IsSound self.now }
    {
        self.pass.caller()
    }

    /// As the trait says; and it isn't `Closed` where the pass has a hold or a handle of the arena.
    #[inline(always)]
    fn enter(&mut self, id: ArenaId) -> OrRefused<()>
        requires { CanVisit (view_of_pass self.old) id }
        ensures enters { AfterEnter (view_of_pass self.old) (view_of_pass self.new) id result }
        ensures held { In id (grips id self.old) → result ≢ Err Closed }
    {
        enter(self.pool, &mut self.pass, id)
    }

    #[inline(always)]
    fn load(&mut self, word: u64) -> u64 {
        load(self.pool, &mut self.pass, word)
    }

    /// As the trait says, page by page.
    fn load_words(&mut self, first: u64, words: &mut [u64]) {
        // Where there is no word, no load says that the memory is sound.
        self.caller();
        let mut k = 0;
        while k < words.len() {
            k += self.load_page(first + k as u64, &mut words[k..]);
        }
    }

    #[inline(always)]
    fn store(&mut self, word: u64, v: u64) {
        store(self.pool, &mut self.pass, word, v);
    }

    /// As the trait says, page by page.
    fn store_words(&mut self, first: u64, words: &[u64]) {
        // Where there is no word, no store says that the memory is sound.
        self.caller();
        let mut k = 0;
        while k < words.len() {
            k += self.store_page(first + k as u64, &words[k..]);
        }
    }

    fn swap_if(&mut self, word: u64, old: u64, new: u64) -> u64 {
        swap_if(self.pool, &mut self.pass, word, old, new)
    }

    fn add(&mut self, word: u64, n: u64) -> u64 {
        add(self.pool, &mut self.pass, word, n)
    }

    fn patch<R: Wait>(&mut self, rt: &R, word: u64, mask: u64, bits: u64) -> u64 {
        patch(rt, self.pool, &mut self.pass, word, mask, bits)
    }

    #[inline(always)]
    fn leave(&mut self) {
        leave(self.pool, &mut self.pass);
    }

    /// As the trait says; and a pass that is known to be whole gets `NoSlot` exactly where every slot is busy. The step
    /// that found no slot had seen no more than the pass has seen afterwards.
    fn open_arena<R: Wait>(&mut self, rt: &R, kind: Kind) -> OrRefused<ArenaId>
        requires { CanOpen (view_of_pass self.old) kind }
        ensures opens { Opens self.old self.new kind result }
        ensures exact { OpensExactly self.old self.new result }
    {
        open_arena(rt, self.pool, &mut self.pass, kind)
    }

    /// As the trait says; and it isn't `Closed` where the pass has a hold or a handle of the arena. `PoolFull` only where
    /// each word of page bits was 0 at a step, and after the last Lend a part of the range had no page; a pass that is
    /// known to be whole gets it exactly where fewer pages are left than parts of the range have none.
    fn allocate<R: Wait>(&mut self, rt: &R, id: ArenaId, size: u64, align: u64) -> OrRefused<u64>
        requires { CanVisit (view_of_pass self.old) id }
        ensures allocates { Allocates self.old self.new id size align result }
        ensures held { In id (grips id self.old) → result ≢ Err Closed }
        ensures exact { AllocatesExactly self.old self.new id size align result }
    {
        allocate(rt, self.pool, &mut self.pass, id, size, align)
    }

    /// As the trait says; and an arena that was closed has ended, and no word of the pool is lent to it any more.
    fn close<R: Wait>(&mut self, rt: &R, id: ArenaId) -> OrRefused<()>
        requires { CanVisit (view_of_pass self.old) id }
        ensures closes { AfterClose (view_of_pass self.old) (view_of_pass self.new) id result }
        ensures gone { IfOk result (λ _. IsGone self.new id) }
    {
        close(rt, self.pool, &mut self.pass, id)
    }

    ghost alone_is = { λ m. refl };
}
