ghost use Rattle.std.specs.Prelude.{◌≡◌, ◌≢◌, ◌<◌, None, true, false};
ghost use Rattle.fm_base.specs.View.{Did};
ghost use Rattle.fm_group.specs.Asked.{CanTry, CanTryAt};
ghost use Rattle.fm_group.specs.Counting.{DoesAddOne, DoesClaim, DoesTries, DoesTry};

use crate::order::{first_place, following};
use crate::table::CountTable;
use fm_base::{Memory, Refusal};

impl CountTable {
    /// Tries the places in their order. Refused: `Closed`, `TableFull`.
    pub(crate) fn try_places<M: Memory>(
        &self,
        m: &mut M,
        ordinal: u64,
        number: i64,
    ) -> Result<u64, Refusal>
        requires { CanTry (M.view m.old) self.now ordinal }
        ensures did { Did (M.view m.old) (M.view m.new) (DoesTries (M.view m.old).caller self.now ordinal number result) }
        ensures outside { (M.view m.new).inside ≡ None }
    {
        let mut place = first_place(self.order, self.places, self.power, number);
        for _ in 0..self.places {
            let counted = self.try_place(m, place, ordinal, number)?;
            if counted {
                return Ok(place);
            }
            place = following(place, self.places);
        }
        Err(Refusal::TableFull)
    }

    /// Tries one place: whether the value was counted there. Refused: `Closed`.
    fn try_place<M: Memory>(
        &self,
        m: &mut M,
        place: u64,
        ordinal: u64,
        number: i64,
    ) -> Result<bool, Refusal>
        requires { CanTryAt (M.view m.old) self.now ordinal place }
        ensures did { Did (M.view m.old) (M.view m.new) (DoesTry (M.view m.old).caller self.now ordinal number place result) }
        ensures outside { (M.view m.new).inside ≡ None }
    {
        let claim = self.claim(m, place, ordinal)?;
        if claim == 0 {
            return Ok(true);
        }
        let other = match self.values.named(claim) {
            Some(other) => other,
            None => return Ok(false),
        };
        let found = self.values.number(m, other)?;
        if !is_same(found, number) {
            return Ok(false);
        }
        self.add_one(m, place)?;
        Ok(true)
    }

    /// Claims a place that is free, and counts one there in the same visit, so that no claim stands without its count.
    /// Answers the claim found. Refused: `Closed`.
    fn claim<M: Memory>(&self, m: &mut M, place: u64, ordinal: u64) -> Result<u64, Refusal>
        requires { CanTryAt (M.view m.old) self.now ordinal place }
        ensures did { Did (M.view m.old) (M.view m.new) (DoesClaim (M.view m.old).caller self.now ordinal place result) }
        ensures outside { (M.view m.new).inside ≡ None }
    {
        m.enter(self.segment.arena())?;
        let word = self.segment.first() / 8 + 2 * place;
        let found = m.swap_if(word, 0, ordinal + 1);
        if found == 0 {
            m.add(word + 1, 1);
            m.leave();
            return Ok(0);
        }
        m.leave();
        Ok(found)
    }

    /// Counts one more at a place. Refused: `Closed`.
    fn add_one<M: Memory>(&self, m: &mut M, place: u64) -> Result<(), Refusal>
        requires { CanTryAt (M.view m.old) self.now 0 place }
        ensures did { Did (M.view m.old) (M.view m.new) (DoesAddOne (M.view m.old).caller self.now place result) }
        ensures outside { (M.view m.new).inside ≡ None }
    {
        m.enter(self.segment.arena())?;
        m.add(self.segment.first() / 8 + 2 * place + 1, 1);
        m.leave();
        Ok(())
    }
}

fn is_same(a: i64, b: i64) -> bool
    ensures yes { result ≡ true → a ≡ b }
    ensures no { result ≡ false → a ≢ b }
{
    a == b
}
