ghost use Rattle.std.specs.Prelude.{◌≡◌};
ghost use Rattle.fm_gate.specs.Needs.{CanVisit};
ghost use Rattle.fm_close.specs.Learnt.{AfterShut};

use fm_base::{ArenaId, Refusal};
use fm_gate::Maker;
use fm_rule::{Pass, Pool, alive_holds, step_shut};

/// A close under way: the arena was shut, and marks of so many numbers were visited. It must be spent by
/// `sweep`, of the pass that shut it.
pub struct Shutting {
    pub(crate) arena: ArenaId,
    pub(crate) next: u32,
    pub(crate) ended: bool,
    pub(crate) maker: Maker,
}

impl Shutting {
    /// The arena that was shut.
    pub fn arena(&self) -> ArenaId
        ensures { result ≡ self.now.arena }
    {
        self.arena
    }

    /// Whether the last mark was visited, and the arena has ended.
    pub fn is_ended(&self) -> bool
        ensures { result ≡ self.now.ended }
    {
        self.ended
    }
}

/// Shuts the arena: nobody comes into it from now on. Its marks are still to be visited, from number 0.
///
/// Refused, in this order: `CannotClose`, `WrongThread`, `Closed`, `Held`. A refused call changes nothing.
pub fn shut(pool: &Pool, pass: &mut Pass, id: ArenaId) -> Result<Shutting, Refusal>
    requires { CanVisit pool.now pass.old id }
    ensures { AfterShut pool.now pass.old pass.new id result }
{
    let caller = pass.caller();
    if !id.kind.is_closable() {
        return Err(Refusal::CannotClose(id.kind));
    }
    if !id.may_be_used_by(caller) {
        return Err(Refusal::WrongThread);
    }
    // The arena is shut before a mark is looked at: who marks it after that look finds it shut.
    let word = step_shut(pool, pass, id);
    let Some(holds) = alive_holds(id, word) else {
        return Err(Refusal::Closed);
    };
    if holds > 0 {
        return Err(Refusal::Held(holds));
    }
    Ok(Shutting {
        arena: id,
        next: 0,
        ended: false,
        maker: Maker::of(pool, pass),
    })
}
