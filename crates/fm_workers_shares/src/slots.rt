ghost use Rattle.std.specs.Prelude.{◌≡◌, Some, IfOk, IfErr, set};
ghost use Rattle.fm_workers_shares.specs.Batches.{nones};
ghost use Rattle.fm_workers_shares.specs.Joining.{CanJoinAll, joined_all};
ghost use Rattle.fm_workers_shares.specs.Placing.{placed};

use crate::answers::{Answers, Done};
use crate::finishing::Whole;
use crate::joining::join_slots;
use fm_base::Refusal;
use fm_records::Answer;
use fm_records_query::Query;
use std::alloc::{AllocError, Global};
use std::marker::Model;

/// A place for each share's answer.
#[derive(Drop)]
pub struct Slots {
    slots: Vec<Option<Answer>>,
}

impl Model for Slots {
    ghost use Rattle.std.specs.Prelude.{List};
    ghost use Rattle.fm_workers_shares.specs.Placing.{Slot};

    ghost Value = { List Slot };

    ghost view = { λ s. s.slots.items };
}

impl Slots {
    /// So many, with no answer yet.
    pub fn new(alloc: Global, count: u32) -> Result<Slots, AllocError>
        ensures { IfOk result (λ slots. slots ≡ nones count) }
    {
        let mut slots = Vec::with_capacity(alloc, count as usize)?;
        for _ in 0..count {
            slots.push_reserved(None);
        }
        Ok(Slots { slots })
    }

    /// All answers joined, in their order. Refused: `Memory`.
    pub fn join_all(self, alloc: Global, q: &Query) -> Result<Answer, Refusal>
        requires { CanJoinAll q.now self }
        ensures joined { IfOk result (λ a. a ≡ joined_all q.now self) }
        ensures memory { IfErr result (λ refusal. refusal ≡ Refusal.Memory) }
    {
        join_slots(alloc, q, self.slots)
    }
}

/// Each answer at its share's place.
impl Whole<Answers> for Slots {
    ghost use Rattle.fm_workers_shares.specs.Placing.{placed};

    ghost joins = { λ behind part whole. whole ≡ placed behind part };

    fn join(&mut self, part: Answers) {
        put_all(&mut self.slots, part.done);
    }
}

/// Puts each answer at its share's place.
fn put_all(slots: &mut Vec<Option<Answer>>, mut done: Vec<Done>)
    ensures { slots.new.items ≡ placed slots.old.items done.items }
{
    while let Some(one) = done.pop() {
        put(slots, one);
    }
}

/// Puts an answer at its share's place, if there is one.
fn put(slots: &mut Vec<Option<Answer>>, done: Done)
    ensures { slots.new.items ≡ set slots.old.items done.job (Some done.answer) }
{
    let Done { job, answer } = done;
    let place = job as usize;
    if place < slots.len() {
        slots[place] = Some(answer);
    }
}
