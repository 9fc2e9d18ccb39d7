ghost use Rattle.fm_top_chunks.specs.Keeping.{CanWait, Waits};

use crate::keeper::{Back, Keeper};
use fm_arena::Shared;
use fm_workers_chunks::{Served, Terms};
use std::alloc::AllocError;
use std::sync::Wait;

/// Waits until a chunk comes back, and meets its note. Refused: want of memory to keep it, and then none was taken.
pub fn take_back<R: Wait, K: Terms>(
    rt: &R,
    memory: &mut Shared,
    keeper: &mut Keeper<'_, K>,
) -> Result<(), AllocError>
    requires { CanWait K.home K.limit K.plan K.stands memory.old keeper.old }
    ensures { Waits K.home K.limit K.plan K.stands memory.old memory.new keeper.old keeper.new result }
{
    keeper.back.reserve(1)?;
    let served = keeper.desk.served.take(rt, &mut keeper.taking);
    let Served {
        number,
        arena,
        count,
        answer,
        note,
    } = served;
    memory.meet(note);
    keeper.back.push_reserved(Back {
        number,
        arena,
        count,
        answer,
    });
    keeper.out -= 1;
    Ok(())
}
