ghost use Rattle.fm_gate.specs.Needs.{CanReach};
ghost use Rattle.fm_gate.specs.Reaching.{Reached};

use fm_pages::place_of;
use fm_rule::{Pass, Pool};

/// The place of the word of this index of the arena that the pass is inside: an act on the word can be made there.
#[inline(always)]
pub(crate) fn reach(pool: &Pool, pass: &mut Pass, word: u64) -> u64
    requires { CanReach pool.now pass.old word }
    ensures { Reached pool.now pass.old pass.new word result }
{
    place_of(pool, pass, word)
}
