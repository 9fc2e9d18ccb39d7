ghost use Rattle.fm_gate.specs.Needs.{CanPatch};
ghost use Rattle.fm_gate.specs.Learnt.{AfterPatch};

use crate::reaching::reach;
use fm_rule::{Pass, Pool, step_load, step_swap_if};
use std::sync::Wait;

/// Puts the word's bits under `mask` to `bits` in one step, and answers the word found at that step.
///
/// It tries until no other pass changed the word between its look and its exchange.
pub fn patch<R: Wait>(rt: &R, pool: &Pool, pass: &mut Pass, word: u64, mask: u64, bits: u64) -> u64
    requires { CanPatch pool.now pass.old word mask bits }
    ensures { AfterPatch pool.now pass.old pass.new word mask bits result }
{
    // The word stands there while the pass is inside.
    let place = reach(pool, pass, word);
    let mut old = step_load(pool, pass, word, place);
    for _ in rt.forever() {
        let found = step_swap_if(pool, pass, word, place, old, old & !mask | bits);
        if found == old {
            return found;
        }
        old = found;
    }
    unreachable!()
}
