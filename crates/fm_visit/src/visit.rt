mod handles;
mod values;

ghost use Rattle.std.specs.Prelude.{◌≡◌, ◌^◌, ◌≤◌, ◌∷◌, [], true, false, length, IfOk, IfErr, Some};
ghost use Rattle.fm_base.specs.Learnt.{AfterEnter, AfterLeave, CanVisit};
ghost use Rattle.fm_visit.specs.Learnt.{IsIn};
ghost use Rattle.fm_visit.specs.Visiting.{AreOf, outcome_of, AfterVisitGetWord, AfterVisitGetWords, AfterVisitPutWords};

use crate::words::{get_word, get_words, put_words, set_word};
use fm_base::{ArenaId, Memory, OrRefused, Refusal};
use fm_segment::Segment;

/// A visit under way. It has the arena's name alone, is made by entering, and has to be spent by leaving.
///
/// Each call takes the memory beside it, and refuses a segment of another arena by `Unsupported`, before all else.
pub struct Visit {
    arena: ArenaId,
}

impl Visit {
    /// Comes into the arena. Refused, in this order: `WrongThread`, `Closed`. A refused caller stays outside.
    pub fn enter<M: Memory>(m: &mut M, arena: ArenaId) -> OrRefused<Visit>
        requires { CanVisit (M.view m.old) arena }
        ensures entered { AfterEnter (M.view m.old) (M.view m.new) arena (outcome_of result) }
        ensures arena { IfOk result (λ visit. visit.arena ≡ arena) }
    {
        m.enter(arena)?;
        Ok(Visit { arena })
    }

    /// Goes out of the arena.
    pub fn leave<M: Memory>(self, m: &mut M)
        requires { (M.view m.old).inside ≡ Some self.arena }
        ensures { AfterLeave (M.view m.old) (M.view m.new) }
    {
        let Visit { arena: _ } = self;
        m.leave();
    }

    /// As `get_word`.
    #[inline(always)]
    pub fn get_word<M: Memory>(&self, m: &mut M, s: &Segment, offset: u64) -> Result<u64, Refusal>
        requires { IsIn (M.view m.old) self.now.arena s.now }
        ensures { AfterVisitGetWord (M.view m.old) (M.view m.new) self.now.arena s.now offset result }
    {
        if self.is_elsewhere(s) {
            return Err(Refusal::Unsupported);
        }
        get_word(m, s, offset)
    }

    /// As `set_word`.
    #[inline(always)]
    pub fn set_word<M: Memory>(
        &self,
        m: &mut M,
        s: &Segment,
        offset: u64,
        v: u64,
    ) -> Result<(), Refusal>
        requires { IsIn (M.view m.old) self.now.arena s.now }
        ensures { AfterVisitPutWords (M.view m.old) (M.view m.new) self.now.arena s.now offset (v ∷ []) result }
    {
        if self.is_elsewhere(s) {
            return Err(Refusal::Unsupported);
        }
        set_word(m, s, offset, v)
    }

    /// As `get_words`.
    pub fn get_words<M: Memory>(
        &self,
        m: &mut M,
        s: &Segment,
        offset: u64,
        into: &mut [u64],
    ) -> Result<(), Refusal>
        requires inside { IsIn (M.view m.old) self.now.arena s.now }
        requires few { length into.old ≤ 2 ^ 37 }
        ensures got { AfterVisitGetWords (M.view m.old) (M.view m.new) self.now.arena s.now offset into.new result }
        ensures same { IfErr result (λ _. into.new ≡ into.old) }
        ensures size { length into.new ≡ length into.old }
    {
        if self.is_elsewhere(s) {
            return Err(Refusal::Unsupported);
        }
        get_words(m, s, offset, into)
    }

    /// As `put_words`.
    pub fn put_words<M: Memory>(
        &self,
        m: &mut M,
        s: &Segment,
        offset: u64,
        words: &[u64],
    ) -> Result<(), Refusal>
        requires inside { IsIn (M.view m.old) self.now.arena s.now }
        requires few { length words.now ≤ 2 ^ 37 }
        ensures { AfterVisitPutWords (M.view m.old) (M.view m.new) self.now.arena s.now offset words.now result }
    {
        if self.is_elsewhere(s) {
            return Err(Refusal::Unsupported);
        }
        put_words(m, s, offset, words)
    }

    /// Whether the segment is of another arena.
    #[inline(always)]
    fn is_elsewhere(&self, s: &Segment) -> bool
        ensures yes { result ≡ true → ¬ (s.now.arena ≡ self.now.arena) }
        ensures no { result ≡ false → s.now.arena ≡ self.now.arena }
    {
        s.arena() != self.arena
    }

    /// Whether one of the segments is of another arena.
    #[inline(always)]
    fn are_elsewhere(&self, a: &Segment, b: &Segment) -> bool
        ensures yes { result ≡ true → ¬ (AreOf self.now.arena a.now b.now) }
        ensures no { result ≡ false → AreOf self.now.arena a.now b.now }
    {
        self.is_elsewhere(a) || self.is_elsewhere(b)
    }
}
