ghost use Rattle.std.specs.Prelude.{◌≡◌, ◌*◌, ◌<◌, None, length};
ghost use Rattle.fm_base.specs.View.{Did};
ghost use Rattle.fm_group.specs.Asked.{CanLook, CanReadRun, CanTry};
ghost use Rattle.fm_group.specs.Reading.{DoesLook, DoesReadNamed, DoesReadPlaces, DoesReadRun, found_as, run_length, runs_in};

use crate::table::CountTable;
use fm_base::{Memory, Refusal};
use std::alloc::Global;

/// How many places are read in one visit.
const AT_ONCE: u64 = 64;

impl CountTable {
    /// Reads all places, a run behind the other: the numbers of the claims that name a value, and their counts.
    /// Refused: `Closed`, `Memory`.
    pub(crate) fn read_places<M: Memory>(
        &self,
        alloc: Global,
        m: &mut M,
    ) -> Result<Vec<(i64, u64)>, Refusal>
        requires { CanTry (M.view m.old) self.now 0 }
        ensures did { Did (M.view m.old) (M.view m.new) (DoesReadPlaces (M.view m.old).caller self.now (found_as result)) }
        ensures outside { (M.view m.new).inside ≡ None }
    {
        let mut found = Vec::new(alloc);
        for run in 0..self.runs() {
            self.read_run(m, run, &mut found)?;
        }
        Ok(found)
    }

    /// How many runs of places there are.
    fn runs(&self) -> u64
        ensures { result ≡ runs_in self.now.table }
    {
        self.places.div_ceil(AT_ONCE)
    }

    /// How many places a run has.
    fn run_length(&self, run: u64) -> usize
        requires { run < runs_in self.now.table }
        ensures { result ≡ run_length self.now.table run }
    {
        AT_ONCE.min(self.places - AT_ONCE * run) as usize
    }

    /// Reads a run: its words, and then the values that its claims name. Refused: `Closed`, `Memory`.
    fn read_run<M: Memory>(
        &self,
        m: &mut M,
        run: u64,
        found: &mut Vec<(i64, u64)>,
    ) -> Result<(), Refusal>
        requires { CanReadRun (M.view m.old) self.now run }
        ensures did { Did (M.view m.old) (M.view m.new)
            (DoesReadRun (M.view m.old).caller self.now run found.old.items found.new.items result) }
        ensures outside { (M.view m.new).inside ≡ None }
    {
        let mut words = [0; 2 * AT_ONCE as usize];
        let count = 2 * self.run_length(run);
        self.look(m, run, &mut words[..count])?;
        self.read_named(m, &words[..count], found)
    }

    /// Reads the words of a run in one visit, of each place its claim and then its count. A count is added behind its
    /// claim, so one that was read first could be of another number. Refused: `Closed`.
    fn look<M: Memory>(&self, m: &mut M, run: u64, words: &mut [u64]) -> Result<(), Refusal>
        requires { CanLook (M.view m.old) self.now run (length words.old) }
        ensures did { Did (M.view m.old) (M.view m.new) (DoesLook (M.view m.old).caller self.now run words.new result) }
        ensures outside { (M.view m.new).inside ≡ None }
        ensures size { length words.new ≡ length words.old }
    {
        m.enter(self.segment.arena())?;
        m.load_words(self.segment.first() / 8 + 2 * (AT_ONCE * run), words);
        m.leave();
        Ok(())
    }

    /// Reads the value of each claim among these words that names one: its number stands behind what was found, with
    /// the count beside the claim. Refused: `Closed`, `Memory`.
    fn read_named<M: Memory>(
        &self,
        m: &mut M,
        words: &[u64],
        found: &mut Vec<(i64, u64)>,
    ) -> Result<(), Refusal>
        requires { CanTry (M.view m.old) self.now 0 }
        ensures did { Did (M.view m.old) (M.view m.new)
            (DoesReadNamed (M.view m.old).caller self.now words.now found.old.items found.new.items result) }
        ensures outside { (M.view m.new).inside ≡ None }
    {
        for place in 0..words.len() / 2 {
            match self.values.named(words[2 * place]) {
                Some(value) => {
                    let number = self.values.number(m, value)?;
                    if found.push((number, words[2 * place + 1])).is_err() {
                        return Err(Refusal::Memory);
                    }
                }
                None => {}
            }
        }
        Ok(())
    }
}
