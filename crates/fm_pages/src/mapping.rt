ghost use Rattle.std.specs.Prelude.{◌≡◌, ◌<◌, Some};
ghost use Rattle.fm_rule.specs.Passes.{IsOf};
ghost use Rattle.fm_pages.specs.Claims.{HasClaimed};
ghost use Rattle.fm_pages.specs.Maps.{MapOutcome};

use crate::page::Page;
use fm_base::ArenaId;
use fm_rule::{Pass, Pool, step_map};

/// Makes the page this part of the arena that the pass is inside. It comes back exactly where the part had another one.
pub fn map(pool: &Pool, pass: &mut Pass, id: ArenaId, index: u32, page: Page) -> Option<Page>
    requires of { IsOf pool.now pass.old }
    requires inside { pass.old.inside ≡ Some id }
    requires low { index < pool.now.shape.reach }
    requires page { HasClaimed pass.old page }
    ensures { MapOutcome pass.old pass.new id index page result }
{
    let other = step_map(pool, pass, id, index, page.index);
    if other != 0 {
        return Some(page);
    }
    let Page { index: _, maker: _ } = page;
    None
}
