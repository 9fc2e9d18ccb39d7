ghost use Rattle.fm_gate.specs.Needs.{CanVisit};
ghost use Rattle.fm_gate.specs.Learnt.{AfterEnter};

use fm_base::{ArenaId, Refusal};
use fm_rule::{Pass, Pool, alive_holds, step_check, step_mark, step_unmark};

/// Comes into the arena, in which the pass may act until it leaves.
///
/// Refused, in this order: `WrongThread`, `Closed`. A refused pass is outside and publishes no mark.
#[inline(always)]
pub fn enter(pool: &Pool, pass: &mut Pass, id: ArenaId) -> Result<(), Refusal>
    requires { CanVisit pool.now pass.old id }
    ensures { AfterEnter pool.now pass.old pass.new id result }
{
    if !id.may_be_used_by(pass.caller()) {
        return Err(Refusal::WrongThread);
    }
    // The mark stands before the arena is looked at: who shuts it after that look finds the mark.
    step_mark(pool, pass, id);
    let word = step_check(pool, pass, id);
    match alive_holds(id, word) {
        Some(_) => Ok(()),
        None => {
            // It was shut before: the mark would keep the closer waiting.
            step_unmark(pool, pass);
            Err(Refusal::Closed)
        }
    }
}
