#![tactic(auto, using(crate::proofs::Stepping::step_rules), unfolding(fm_rule_facts::specs::Steps::part))]

ghost use Rattle.std.specs.Prelude.{◌≡◌, ◌≢◌, ◌≤◌, ◌+◌, ◌==◌, ◌∷◌, [], None, Some};
ghost use Rattle.fm_base.specs.Calls as machine;
ghost use Rattle.fm_base.specs.Machine.{IsPower, allocate_reply, rounded_up};
ghost use Rattle.fm_rule_facts.specs.Views.{limit_of, given_of};
ghost use Rattle.fm_rule_facts.specs.Steps.{Stepped, CanReach, HasPlace, HasParts, none_noted, acted, where_found};
ghost use Rattle.fm_rule.specs.Passes.{IsOf};

use crate::acts::{add_as, exchange_as};
use crate::fitting::given_next;
use crate::pass::Pass;
use crate::pool::Pool;
use fm_base::ArenaId;
use fm_rule_facts::Step;
use std::marker::Brand;

/// Puts `new` into the word of this index where it is `old`, and answers the word found.
pub fn step_swap_if(pool: &Pool, pass: &mut Pass, word: u64, place: u64, old: u64, new: u64) -> u64
    requires of { IsOf pool.now pass.old }
    requires act { CanReach pass.old word }
    requires place { HasPlace pass.old word place }
    ensures { Stepped pass.old pass.new pass.old
        (acted pass.old.inside pass.old.caller (λ id. machine.SwapIf id word old new)
        (machine.Found result)) none_noted }
{
    exchange_as::<Brand>(
        pool,
        &mut pass.seat,
        place,
        old,
        new,
        Step::SwapsIf(word, old, new),
    )
}

/// Adds `n` to the word of this index, wrapping at 2^64, and answers the word found.
pub fn step_add(pool: &Pool, pass: &mut Pass, word: u64, place: u64, n: u64) -> u64
    requires of { IsOf pool.now pass.old }
    requires act { CanReach pass.old word }
    requires place { HasPlace pass.old word place }
    ensures { Stepped pass.old pass.new pass.old
        (acted pass.old.inside pass.old.caller (λ id. machine.Add id word n) (machine.Found result)) none_noted }
{
    add_as::<Brand>(pool, &mut pass.seat, place, n, Step::Adds(word, n))
}

/// Gives bytes of the arena that the pass is inside where so many were given, and answers the count found.
pub fn step_allocate(
    pool: &Pool,
    pass: &mut Pass,
    id: ArenaId,
    given: u64,
    size: u64,
    align: u64,
) -> u64
    requires of { IsOf pool.now pass.old }
    requires inside { pass.old.inside ≡ Some id }
    requires power { IsPower align }
    requires parts { rounded_up given align + size ≤ limit_of pass.old.shape
        → HasParts pass.old given (rounded_up given align + size) }
    ensures count { result ≢ given → result ≡ given_of pass.new id }
    ensures stepped { Stepped pass.old pass.new pass.old
        (where_found (result == given) (acted pass.old.inside pass.old.caller (λ b. machine.Allocate b size align)
        (allocate_reply (limit_of pass.old.shape) given size align))) none_noted }
{
    let seat = &mut pass.seat;
    let place = pool.shape.given_place(id.slot);
    let next = given_next(pool.limit(), given, size, align);
    let step = Step::Allocates(given, size, align);
    exchange_as::<Brand>(pool, seat, place, given, next, step)
}

/// A guess at how many bytes the arena has given that the pass is inside. It tells nothing.
pub fn guess_given(pool: &Pool, pass: &Pass) -> u64
    requires { IsOf pool.now pass.now }
{
    match pass.inside() {
        Some(a) => pool.peek(pool.shape.given_place(a.slot)),
        None => 0,
    }
}
