ghost use Rattle.fm_top_pooled.specs.Stocked.{IsAlone};
ghost use Rattle.fm_top_stream.specs.Steps.{Opens};

use fm_base::{ArenaId, Kind};
use fm_gate::open_arena;
use fm_rule::{Pass, Pool};
use std::sync::Wait;
use std::thread;

/// Opens a shared arena. Where every slot is busy it waits.
pub(crate) fn open_chunk<R: Wait>(rt: &R, pool: &Pool, pass: &mut Pass) -> ArenaId
    requires { IsAlone pass.old.gathered pool.now pass.old }
    ensures { Opens pool.now pass.old pass.new result }
{
    for _ in rt.forever() {
        match open_arena(rt, pool, pass, Kind::Shared) {
            Ok(arena) => return arena,
            // It is refused for want of a slot alone.
            Err(_) => thread::yield_now(),
        }
    }
    unreachable!()
}
