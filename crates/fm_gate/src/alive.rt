ghost use Rattle.fm_gate.specs.Needs.{CanVisit};
ghost use Rattle.fm_gate.specs.Learnt.{AfterIsAlive};

use crate::entering::enter;
use crate::leaving::leave;
use fm_base::{ArenaId, Refusal};
use fm_rule::{Pass, Pool};

/// Whether the arena is alive: a visit to it without acts.
///
/// Refused: `WrongThread`.
pub fn is_alive(pool: &Pool, pass: &mut Pass, id: ArenaId) -> Result<bool, Refusal>
    requires { CanVisit pool.now pass.old id }
    ensures { AfterIsAlive pool.now pass.old pass.new id result }
{
    match enter(pool, pass, id) {
        Ok(()) => {
            leave(pool, pass);
            Ok(true)
        }
        Err(Refusal::Closed) => Ok(false),
        Err(refusal) => Err(refusal),
    }
}
