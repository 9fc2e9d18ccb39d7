ghost use Rattle.std.specs.Prelude.{◌≡◌};
ghost use Rattle.fm_close.specs.Learnt.{CanWalk, AfterVisit};

use crate::outcome::Visit;
use crate::shutting::Shutting;
use fm_rule::{Pass, Pool, mark_of, step_visit};

/// Looks at the next mark. Where it names the arena, it stays the next one.
pub fn visit(pool: &Pool, pass: &mut Pass, s: &mut Shutting) -> Visit
    requires { CanWalk pool.now pass.old s.old }
    ensures { AfterVisit pool.now pass.old pass.new s.old s.new result }
{
    let k = s.next;
    let found = step_visit(pool, pass, s.arena, k);
    // Whoever marked it may have entered before the arena was shut.
    if found == mark_of(s.arena) {
        return Visit::Inside(k);
    }
    // Who marks it from now on finds it shut: the number is done with for good, and so are all before it.
    if k + 1 == pool.shape().passes {
        s.ended = true;
        return Visit::Ended;
    }
    s.next = k + 1;
    Visit::Next
}
