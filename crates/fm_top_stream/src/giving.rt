ghost use Rattle.std.specs.Prelude.{◌≤◌};
ghost use Rattle.fm_rule_calls.specs.Told.{view_of_pass};
ghost use Rattle.fm_rule_facts.specs.Views.{limit_of};
ghost use Rattle.fm_top_load.specs.Held.{IsEmpty};
ghost use Rattle.fm_top_pooled.specs.Stocked.{IsAlone};
ghost use Rattle.fm_top_stream.specs.Steps.{Gives};

use fm_base::ArenaId;
use fm_gate::allocate;
use fm_rule::{Pass, Pool};
use std::sync::Wait;
use std::thread;

/// Has the arena give its first bytes. Where there is no page it waits.
pub(crate) fn give_chunk<R: Wait>(rt: &R, pool: &Pool, pass: &mut Pass, arena: ArenaId, size: u64)
    requires alone { IsAlone pass.old.gathered pool.now pass.old }
    requires empty { IsEmpty (view_of_pass pass.old) arena }
    requires room { size ≤ limit_of pool.now.shape }
    ensures { Gives pool.now pass.old pass.new arena size }
{
    for _ in rt.forever() {
        match allocate(rt, pool, pass, arena, size, 8) {
            Ok(_) => return,
            // It is refused for want of a page alone.
            Err(_) => thread::yield_now(),
        }
    }
    unreachable!()
}
