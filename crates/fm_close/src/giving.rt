ghost use Rattle.fm_gate.specs.Needs.{HasHandle};
ghost use Rattle.fm_close.specs.Learnt.{CanGiveBack, AfterBack, AfterSpend, AfterGiveBack};
ghost use Rattle.fm_close.specs.Handles.{HandlesAreLeft};

use crate::closing::walk;
use crate::gave_back::GaveBack;
use crate::shutting::Shutting;
use crate::sweeping::sweep;
use fm_base::ArenaId;
use fm_gate::Maker;
use fm_rule::{Pass, Pool, alive_holds, step_back};
use std::sync::Wait;

/// Spends a handle of an automatic arena. With the last one the arena ends, once nobody is under way in it.
pub fn give_back<R: Wait>(rt: &R, pool: &Pool, pass: &mut Pass, id: ArenaId) -> GaveBack
    requires { CanGiveBack pool.now pass.old id }
    ensures { AfterGiveBack pool.now pass.old pass.new id result }
{
    match spend(rt, pool, pass, id) {
        None => GaveBack::Kept,
        Some(mut s) => {
            walk(rt, pool, pass, &mut s);
            sweep(pool, pass, s);
            GaveBack::Ended
        }
    }
}

/// Spends a handle, and answers the close that is begun with the last one.
fn spend<R: Wait>(rt: &R, pool: &Pool, pass: &mut Pass, id: ArenaId) -> Option<Shutting>
    requires { CanGiveBack pool.now pass.old id }
    ensures { AfterSpend pool.now pass.old pass.new id result }
{
    let word = back(rt, pool, pass, id);
    match alive_holds(id, word) {
        None => unreachable!(),
        Some(holds) => {
            if holds > 0 {
                return None;
            }
            Some(Shutting {
                arena: id,
                next: 0,
                ended: false,
                maker: Maker::of(pool, pass),
            })
        }
    }
}

/// Gives back a handle, and answers the session word that it found.
///
/// It tries until no other pass changed the session between its look and its exchange.
fn back<R: Wait>(rt: &R, pool: &Pool, pass: &mut Pass, id: ArenaId) -> u64
    requires { HasHandle pool.now pass.old id }
    ensures { AfterBack pass.old pass.new id result }
{
    let mut word = pool.guess_session(id.slot);
    for _ in rt.forever() {
        let found = step_back(pool, pass, id, word);
        if found == word {
            return word;
        }
        word = found;
    }
    unreachable!()
}

/// Handles that weren't given back can still be used: one of the arena where there were two, and those of other arenas.
pub fn other_handles_last()
    ensures { HandlesAreLeft }
{}
