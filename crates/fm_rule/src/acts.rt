//! One atomic step each, of the kind that the caller picks.
ghost use Rattle.std.specs.Prelude.{◌≡◌, ◌==◌, ◌+◌, ◌-◌, ◌%◌, ◌^◌, bit_or};
ghost use prog.Atomic.{either};
ghost use Rattle.fm_rule.specs.Acts.{Acted, CanAct, CanStore};

use crate::pool::{Aim, Pool, Told};
use crate::seen::Seen;
use atomic_table::Seat;
use fm_rule_facts::Step;

/// Answers the word at the place.
#[inline(always)]
pub(crate) fn load_as<J: Aim>(pool: &Pool, seat: &mut Seat<(), Seen>, place: u64, step: Step) -> u64
    requires step { J.step ≡ step }
    requires can { CanAct pool.now seat.old place step (λ n. n) }
    ensures { Acted seat.old seat.new step result }
{
    let _ = step;
    pool.table.shared.load::<Told<J>>(seat, place as usize)
}

/// Puts `new` into the word at the place.
#[inline(always)]
pub(crate) fn store_as<J: Aim>(
    pool: &Pool,
    seat: &mut Seat<(), Seen>,
    place: u64,
    new: u64,
    step: Step,
)
    requires step { J.step ≡ step }
    requires can { CanStore pool.now seat.old place step new }
    ensures { Acted seat.old seat.new step new }
{
    let _ = step;
    pool.table
        .shared
        .store::<Told<J>>(seat, place as usize, new);
}

/// Puts `new` into the word at the place where it is `old`, and answers the word found.
pub(crate) fn exchange_as<J: Aim>(
    pool: &Pool,
    seat: &mut Seat<(), Seen>,
    place: u64,
    old: u64,
    new: u64,
    step: Step,
) -> u64
    requires step { J.step ≡ step }
    requires can { CanAct pool.now seat.old place step (λ n. either (n == old) new n) }
    ensures { Acted seat.old seat.new step result }
{
    let _ = step;
    pool.table
        .shared
        .compare_exchange::<Told<J>>(seat, place as usize, old, new)
}

/// Adds `n` to the word at the place, wrapping at 2^64, and answers the word found.
pub(crate) fn add_as<J: Aim>(
    pool: &Pool,
    seat: &mut Seat<(), Seen>,
    place: u64,
    n: u64,
    step: Step,
) -> u64
    requires step { J.step ≡ step }
    requires can { CanAct pool.now seat.old place step (λ w. (w + n) % 2 ^ 64) }
    ensures { Acted seat.old seat.new step result }
{
    let _ = step;
    pool.table
        .shared
        .fetch_add::<Told<J>>(seat, place as usize, n)
}

/// Subtracts `n` from the word at the place, wrapping at 0, and answers the word found.
pub(crate) fn subtract_as<J: Aim>(
    pool: &Pool,
    seat: &mut Seat<(), Seen>,
    place: u64,
    n: u64,
    step: Step,
) -> u64
    requires step { J.step ≡ step }
    requires can { CanAct pool.now seat.old place step (λ w. (w + (2 ^ 64 - n)) % 2 ^ 64) }
    ensures { Acted seat.old seat.new step result }
{
    let _ = step;
    pool.table
        .shared
        .fetch_sub::<Told<J>>(seat, place as usize, n)
}

/// Makes the bits of `n` 1 in the word at the place.
pub(crate) fn or_as<J: Aim>(
    pool: &Pool,
    seat: &mut Seat<(), Seen>,
    place: u64,
    n: u64,
    step: Step,
) -> u64
    requires step { J.step ≡ step }
    requires can { CanAct pool.now seat.old place step (λ w. bit_or w n) }
    ensures { Acted seat.old seat.new step result }
{
    let _ = step;
    pool.table
        .shared
        .fetch_or::<Told<J>>(seat, place as usize, n)
}
