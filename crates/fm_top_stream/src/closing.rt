ghost use Rattle.fm_top_stream.specs.Steps.{CanClose, Closes};

use fm_base::ArenaId;
use fm_close::close;
use fm_rule::{Pass, Pool};
use std::sync::Wait;
use std::thread;

/// Closes the arena, whose slot and pages can be taken again then. Where it is held it waits.
pub(crate) fn close_chunk<R: Wait>(rt: &R, pool: &Pool, pass: &mut Pass, arena: ArenaId)
    requires { CanClose pool.now pass.old arena }
    ensures { Closes pool.now pass.old pass.new arena }
{
    for _ in rt.forever() {
        match close(rt, pool, pass, arena) {
            Ok(()) => return,
            // It is alive and shared, so it is refused where it is held alone.
            Err(_) => thread::yield_now(),
        }
    }
    unreachable!()
}
