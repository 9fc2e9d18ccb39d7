ghost use Rattle.fm_gate.specs.Needs.{HasHandle};
ghost use Rattle.fm_gate.specs.Learnt.{AfterAgain};
ghost use Rattle.fm_gate.specs.HandleLaws.{HandleLasts};

use crate::holding::take;
use fm_base::{ArenaId, Refusal};
use fm_rule::{MOST_HOLDS, Pass, Pool, alive_holds};
use std::sync::Wait;

/// Takes another handle of an automatic arena of which the pass has one, wherever the pass stands.
///
/// Refused: `TooManyHolds`. A refused call changes nothing. The arena is alive while the pass has a handle of it.
pub fn again<R: Wait>(rt: &R, pool: &Pool, pass: &mut Pass, id: ArenaId) -> Result<(), Refusal>
    requires { HasHandle pool.now pass.old id }
    ensures { AfterAgain pool.now pass.old pass.new id result }
{
    let word = take(rt, pool, pass, id);
    match alive_holds(id, word) {
        None => unreachable!(),
        Some(holds) => {
            if holds == MOST_HOLDS {
                return Err(Refusal::TooManyHolds);
            }
            Ok(())
        }
    }
}

/// A handle can be used after any calls that leave the pass its handles, and after arenas were opened and other handles
/// taken.
pub fn a_handle_lasts()
    ensures { HandleLasts }
{}
