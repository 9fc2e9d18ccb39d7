ghost use Rattle.std.specs.Prelude.{◌≡◌, [], Some};
ghost use Rattle.fm_base.specs.Machine.{IsPower};
ghost use Rattle.fm_rule.specs.Passes.{IsOf};
ghost use Rattle.fm_pages.specs.Gives.{TriedOutcome};

use crate::covering::cover;
use fm_base::ArenaId;
use fm_rule::{Pass, Pool, room, step_allocate};
use std::sync::Wait;

/// Tries to give bytes of the arena that the pass is inside, where it has given so many, and answers the count found.
/// None where a part of the range had no page and none was free.
pub fn try_at<R: Wait>(
    rt: &R,
    pool: &Pool,
    pass: &mut Pass,
    id: ArenaId,
    count: u64,
    size: u64,
    align: u64,
) -> Option<u64>
    requires of { IsOf pool.now pass.old }
    requires none { pass.old.pages ≡ [] }
    requires inside { pass.old.inside ≡ Some id }
    requires power { IsPower align }
    ensures { TriedOutcome pass.old pass.new id count size align result }
{
    match room(pool.limit(), count, size, align) {
        None => {
            let found = step_allocate(pool, pass, id, count, size, align);
            Some(found)
        }
        Some(place) => {
            let covered = cover(rt, pool, pass, id, count, place + size);
            if !covered {
                return None;
            }
            let found = step_allocate(pool, pass, id, count, size, align);
            Some(found)
        }
    }
}
