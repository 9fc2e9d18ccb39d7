ghost use Rattle.std.specs.Prelude.{◌≡◌, ◌<◌, [], Some};
ghost use Rattle.fm_rule.specs.Passes.{IsOf};
ghost use Rattle.fm_pages.specs.Provides.{Provided};

use crate::claiming::{claim, free_page};
use crate::mapping::map;
use fm_base::ArenaId;
use fm_rule::{Pass, Pool, step_read_map};
use std::sync::Wait;

/// Whether this part of the arena that the pass is inside has a page, which it gets where it has none and one is free.
pub(crate) fn provide<R: Wait>(rt: &R, pool: &Pool, pass: &mut Pass, id: ArenaId, part: u32) -> bool
    requires of { IsOf pool.now pass.old }
    requires none { pass.old.pages ≡ [] }
    requires inside { pass.old.inside ≡ Some id }
    requires low { part < pool.now.shape.reach }
    ensures { Provided pass.old pass.new id part result }
{
    let word = step_read_map(pool, pass, id, part);
    if word != 0 {
        return true;
    }
    match claim(rt, pool, pass) {
        Err(_) => false,
        Ok(page) => {
            if let Some(page) = map(pool, pass, id, part, page) {
                // Another pass was first.
                free_page(pool, pass, page);
            }
            true
        }
    }
}
