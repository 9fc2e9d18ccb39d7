ghost use Rattle.std.specs.Prelude.{◌≡◌, ◌++◌, [], ◌≤◌, length, map, take, drop, IfOk, OnOk, OnErr, IfErr};
ghost use Rattle.fm_records.specs.Answers.{answer, item_found};
ghost use Rattle.fm_records.specs.Few.{AreFew};
ghost use Rattle.fm_records.specs.Joined.{CanJoin, joined};
ghost use Rattle.fm_records.specs.Kept.{Becomes};

use crate::found::Found;
use fm_base::Refusal;
use fm_records_query::{Item, Query};
use std::alloc::{AllocError, Global};
use std::marker::Model;

/// What a query answers: what each item finds, in the order of the items.
#[derive(Debug, Drop)]
pub struct Answer {
    found: Vec<Found>,
}

impl Model for Answer {
    ghost use Rattle.std.specs.Prelude.{List};
    ghost use Rattle.fm_records.specs.declared.found.Found.{Found};

    ghost Value = { List Found };

    ghost view = { λ answer. answer.found.items };
}

impl Answer {
    /// The answer of which each item found this.
    pub(crate) fn of(found: Vec<Found>) -> Answer
        ensures { result ≡ found.items }
    {
        Answer { found }
    }

    /// What each item found, as a vector again.
    pub(crate) fn into_found(self) -> Vec<Found>
        ensures { result.items ≡ self }
    {
        self.found
    }

    /// What was found, item by item.
    pub fn found(&self) -> &[Found]
        ensures { result.now ≡ self.now }
    {
        self.found.as_slice()
    }

    /// Adds the answer of the same query over the records behind: then it is the answer over both runs of records.
    ///
    /// Refused: `Memory`, which leaves it as it was.
    pub fn join(&mut self, next: Answer) -> Result<(), Refusal>
        requires { CanJoin self.old next }
        ensures joined { OnOk result (self.new ≡ joined self.old next) }
        ensures same { OnErr result (self.new ≡ self.old) }
        ensures memory { IfErr result (λ refusal. refusal ≡ Refusal.Memory) }
    {
        join_from(&mut self.found, &next.found, 0)
    }
}

/// What a query answers over no records. Refused: `Memory`.
pub fn of_no_records(alloc: Global, q: &Query) -> Result<Answer, Refusal>
    ensures answer { IfOk result (λ a. a ≡ answer q.now []) }
    ensures few { IfOk result (AreFew 0 q.now) }
    ensures memory { IfErr result (λ refusal. refusal ≡ Refusal.Memory) }
{
    Ok(Answer::of(found_in_none(alloc, q.items())?))
}

/// What each item finds in no records.
fn found_in_none(alloc: Global, items: &[Item]) -> Result<Vec<Found>, AllocError>
    ensures { IfOk result (λ found. found.items ≡ map (item_found []) items.now) }
{
    let mut found = Vec::new(alloc);
    for item in items {
        found.push(Found::in_none(alloc, &item.asked))?;
    }
    Ok(found)
}

/// Joins what was found from item `k` on.
///
/// Numbers are listed on the way in, and counts and sums added on the way out: a want of memory comes before the first
/// sum, and on the way out from there the numbers are taken away again.
fn join_from(found: &mut Vec<Found>, next: &Vec<Found>, k: usize) -> Result<(), Refusal>
    requires within { k ≤ length found.old.items }
    requires join { CanJoin (drop k found.old.items) (drop k next.now.items) }
    ensures { Becomes found.old.items found.new.items
        (take k found.old.items ++ joined (drop k found.old.items) (drop k next.now.items)) result }
{
    if k >= next.len() {
        return Ok(());
    }
    found[k].lengthen(&next[k])?;
    match join_from(found, next, k + 1) {
        Ok(()) => {
            found[k].add(&next[k]);
            Ok(())
        }
        Err(refusal) => {
            found[k].shorten(&next[k]);
            Err(refusal)
        }
    }
}
