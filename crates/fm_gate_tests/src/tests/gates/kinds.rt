ghost use Rattle.fm_gate.specs.Needs.{CanVisit, HasHandle};

use super::{made, read, write};
use crate::tests::compared::same;
use crate::tests::pools::given;
use fm_base::{ArenaId, Kind, Refusal};
use fm_gate::{again, enter, hold, leave, open_arena, unhold};
use fm_rule::{Pass, Pool};
use std::alloc::AllocGlobal;
use std::process::Abort;
use std::sync::Wait;

/// Takes a hold and spends it.
fn held_once<R: Wait>(rt: &R, pool: &Pool, pass: &mut Pass, a: ArenaId) -> Result<(), Refusal>
    requires { CanVisit pool.now pass.old a }
{
    let once = hold(rt, pool, pass, a)?;
    unhold(pool, pass, once);
    Ok(())
}

/// Stores into an arena of this kind, and answers the word that it loads then and what became of a hold.
fn used<R: Abort + AllocGlobal + Wait>(rt: &R, kind: Kind) -> (u64, Result<(), Refusal>) {
    let (pool, mut pass) = made(rt, 1);
    let a = given(rt, &pool, &mut pass, kind, 64);
    same(rt, enter(&pool, &mut pass, a), Ok(()));
    write(&pool, &mut pass, a, 7, 9);
    let found = read(&pool, &mut pass, a, 7);
    leave(&pool, &mut pass);
    (found, held_once(rt, &pool, &mut pass, a))
}

#[test]
fn arenas_of_each_kind_are_used_alike(rt: HostRuntime) {
    let rows = [
        (Kind::Global, Ok(())),
        (Kind::Automatic, Err(Refusal::Unsupported)),
        (Kind::Confined, Ok(())),
        (Kind::Shared, Ok(())),
    ];
    for (kind, hold) in rows {
        same(&rt, used(&rt, kind), (9, hold));
    }
}

/// Takes so many handles.
fn take_handles<R: Wait>(
    rt: &R,
    pool: &Pool,
    pass: &mut Pass,
    a: ArenaId,
    times: u32,
) -> Result<(), Refusal>
    requires { HasHandle pool.now pass.old a }
    ensures { HasHandle pool.now pass.new a }
{
    if times > 1 {
        take_handles(rt, pool, pass, a, times / 2)?;
        take_handles(rt, pool, pass, a, times - times / 2)
    } else {
        again(rt, pool, pass, a)
    }
}

#[test]
fn an_automatic_arena_has_65536_handles_at_most(rt: HostRuntime) {
    let (pool, mut pass) = made(&rt, 1);
    let a = open_arena(&rt, &pool, &mut pass, Kind::Automatic).expect(&rt, "a slot");
    same(&rt, take_handles(&rt, &pool, &mut pass, a, 65_535), Ok(()));
    same(
        &rt,
        again(&rt, &pool, &mut pass, a),
        Err(Refusal::TooManyHolds),
    );
}
