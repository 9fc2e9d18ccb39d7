ghost use Rattle.std.specs.Prelude.{IfOk};
ghost use Rattle.fm_gate.specs.Needs.{CanUnhold, CanVisit, IsOutside};
ghost use Rattle.fm_gate.specs.HoldLaws.{HasBoth};

use super::made;
use crate::tests::compared::same;
use crate::tests::pools::new_arena;
use fm_base::{ArenaId, Kind, Refusal};
use fm_close::close;
use fm_gate::{Hold, a_hold_stands, both_holds_stand, hold, unhold};
use fm_rule::{Pass, Pool};
use std::sync::Wait;

/// What closing answers while two holds stand, while one does, and when both are spent.
type Answers = (
    Result<(), Refusal>,
    Result<(), Refusal>,
    Result<(), Refusal>,
);

/// Holds an arena once more.
fn hold_more<R: Wait>(rt: &R, pool: &Pool, pass: &mut Pass, first: &Hold) -> Result<Hold, Refusal>
    requires outside { IsOutside pool.now pass.old }
    requires first { CanUnhold pool.now pass.old first.now }
    ensures outside { IsOutside pool.now pass.new }
    ensures first { CanUnhold pool.now pass.new first.now }
    ensures both { IfOk result (λ second. HasBoth pool.now pass.new first.now second) }
{
    both_holds_stand();
    hold(rt, pool, pass, first.arena())
}

/// Tries to close an arena that is held twice, and spends the second hold.
fn close_and_spend<R: Wait>(
    rt: &R,
    pool: &Pool,
    pass: &mut Pass,
    first: &Hold,
    second: Hold,
) -> Result<(), Refusal>
    requires outside { IsOutside pool.now pass.old }
    requires both { HasBoth pool.now pass.old first.now second }
    ensures outside { IsOutside pool.now pass.new }
    ensures first { CanUnhold pool.now pass.new first.now }
{
    both_holds_stand();
    let answer = close(rt, pool, pass, first.arena());
    unhold(pool, pass, second);
    answer
}

/// Tries to close an arena that is held once, spends the hold, and tries again.
fn close_and_spend_last<R: Wait>(
    rt: &R,
    pool: &Pool,
    pass: &mut Pass,
    last: Hold,
) -> (Result<(), Refusal>, Result<(), Refusal>)
    requires outside { IsOutside pool.now pass.old }
    requires last { CanUnhold pool.now pass.old last }
{
    let arena = last.arena();
    a_hold_stands();
    let held = close(rt, pool, pass, arena);
    unhold(pool, pass, last);
    (held, close(rt, pool, pass, arena))
}

/// Tries to close an arena that is held twice, once, and not at all.
fn closes_of_two_holds<R: Wait>(
    rt: &R,
    pool: &Pool,
    pass: &mut Pass,
    a: ArenaId,
) -> Result<Answers, Refusal>
    requires { CanVisit pool.now pass.old a }
{
    let first = hold(rt, pool, pass, a)?;
    match hold_more(rt, pool, pass, &first) {
        Err(refusal) => {
            unhold(pool, pass, first);
            Err(refusal)
        }
        Ok(second) => {
            let twice = close_and_spend(rt, pool, pass, &first, second);
            let (once, last) = close_and_spend_last(rt, pool, pass, first);
            Ok((twice, once, last))
        }
    }
}

#[test]
fn an_arena_that_is_held_twice_is_closed_once_both_are_spent(rt: HostRuntime) {
    let (pool, mut pass) = made(&rt, 1);
    let a = new_arena(&rt, &pool, &mut pass, Kind::Shared);
    let answers = (Err(Refusal::Held(2)), Err(Refusal::Held(1)), Ok(()));
    same(
        &rt,
        closes_of_two_holds(&rt, &pool, &mut pass, a),
        Ok(answers),
    );
}
