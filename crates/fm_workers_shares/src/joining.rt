ghost use Rattle.std.specs.Prelude.{◌≡◌, Some, IfOk, IfErr};
ghost use Rattle.fm_workers_shares.specs.Joining.{CanJoinAll, CanJoinSlot, JoinsSlot, joined_all};

use fm_base::Refusal;
use fm_records::{Answer, of_no_records};
use fm_records_query::Query;
use std::alloc::Global;

/// All answers joined, in their order. Refused: `Memory`.
pub(crate) fn join_slots(
    alloc: Global,
    q: &Query,
    mut slots: Vec<Option<Answer>>,
) -> Result<Answer, Refusal>
    requires { CanJoinAll q.now slots.items }
    ensures joined { IfOk result (λ a. a ≡ joined_all q.now slots.items) }
    ensures memory { IfErr result (λ refusal. refusal ≡ Refusal.Memory) }
{
    let mut behind = of_no_records(alloc, q);
    while let Some(slot) = slots.pop() {
        behind = join(slot, behind);
    }
    behind
}

/// An answer, and what those behind it come to.
fn join(slot: Option<Answer>, behind: Result<Answer, Refusal>) -> Result<Answer, Refusal>
    requires can { CanJoinSlot slot behind }
    requires memory { IfErr behind (λ refusal. refusal ≡ Refusal.Memory) }
    ensures joins { JoinsSlot slot behind result }
    ensures memory { IfErr result (λ refusal. refusal ≡ Refusal.Memory) }
{
    let Some(mut first) = slot else {
        unreachable!()
    };
    let rest = match behind {
        Ok(rest) => rest,
        Err(refusal) => return Err(refusal),
    };
    match first.join(rest) {
        Ok(()) => Ok(first),
        Err(refusal) => Err(refusal),
    }
}
