ghost use Rattle.fm_close.specs.Learnt.{CanWalk};
ghost use Rattle.fm_async.specs.Visits.{Advanced};

use fm_close::{Shutting, Visit, visit};
use fm_rule::{Pass, Pool};

/// Visits marks up to one that names the arena, and answers its number, or up to the arena's end.
///
/// It waits for nobody: each mark that is left is loaded at most once.
pub fn advance(pool: &Pool, pass: &mut Pass, s: &mut Shutting) -> Option<u32>
    requires { CanWalk pool.now pass.old s.old }
    ensures { Advanced pool.now pass.old pass.new s.old s.new result }
{
    loop {
        match visit(pool, pass, s) {
            Visit::Next => {}
            // It stays the next one: the marks before it are done with, those behind it are still to be visited.
            Visit::Inside(k) => return Some(k),
            Visit::Ended => return None,
        }
    }
}
