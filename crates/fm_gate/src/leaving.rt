ghost use Rattle.fm_gate.specs.Needs.{CanLeave};
ghost use Rattle.fm_gate.specs.Learnt.{AfterLeave};

use fm_rule::{Pass, Pool, step_unmark};

/// Goes out of the arena that the pass is inside.
#[inline(always)]
pub fn leave(pool: &Pool, pass: &mut Pass)
    requires { CanLeave pool.now pass.old }
    ensures { AfterLeave pool.now pass.old pass.new }
{
    // The last act is done: from here on a closer need not wait.
    step_unmark(pool, pass);
}
