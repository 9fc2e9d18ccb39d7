ghost use Rattle.fm_gate.specs.Needs.{CanVisit};
ghost use Rattle.fm_close.specs.Learnt.{CanWalk, AfterClose, Walked};

use crate::outcome::Visit;
use crate::shutting::{Shutting, shut};
use crate::sweeping::sweep;
use crate::visiting::visit;
use fm_base::{ArenaId, Refusal};
use fm_rule::{Pass, Pool};
use std::sync::Wait;

/// Ends the arena, once nobody is under way in it.
///
/// Refused, in this order: `CannotClose`, `WrongThread`, `Closed`, `Held`. A refused call changes nothing.
pub fn close<R: Wait>(rt: &R, pool: &Pool, pass: &mut Pass, id: ArenaId) -> Result<(), Refusal>
    requires { CanVisit pool.now pass.old id }
    ensures { AfterClose pool.now pass.old pass.new id result }
{
    match shut(pool, pass, id) {
        Err(refusal) => Err(refusal),
        Ok(mut s) => {
            walk(rt, pool, pass, &mut s);
            sweep(pool, pass, s);
            Ok(())
        }
    }
}

/// Visits all marks that are left. It waits while one names the arena.
pub(crate) fn walk<R: Wait>(rt: &R, pool: &Pool, pass: &mut Pass, s: &mut Shutting)
    requires { CanWalk pool.now pass.old s.old }
    ensures { Walked pool.now pass.old pass.new s.old s.new }
{
    for _ in rt.forever() {
        if let Visit::Ended = visit(pool, pass, s) {
            return;
        }
    }
    unreachable!()
}
