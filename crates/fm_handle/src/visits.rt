ghost use Rattle.std.specs.Prelude.{◌≡◌};
ghost use Rattle.fm_lanes.specs.Kind.{width_of};
ghost use Rattle.fm_lanes.specs.Value.{kind_of};
ghost use Rattle.fm_segment_access.specs.Learnt.{CanTouchPiece, Visited};
ghost use Rattle.fm_handle.specs.Access.{DoesVisit};
ghost use Rattle.fm_handle.specs.Acts.{Adds, AddsLong, Exchanges, ExchangesLong, Stores, word_of};

use crate::inside::{add_inside, exchange_inside};
use crate::word::{long_in, word_of};
use fm_base::{ArenaId, Memory, Refusal};
use fm_lanes::{Order, Value};
use std::sync::Wait;

/// Puts a long at `place` in one visit. Refused, in this order: `WrongThread`, `Closed`.
pub(crate) fn store_long<M: Memory>(
    m: &mut M,
    arena: ArenaId,
    place: u64,
    order: Order,
    v: i64,
) -> Result<(), Refusal>
    requires { CanTouchPiece (M.view m.old) arena place 8 }
    ensures { Visited (M.view m.old) (M.view m.new)
        (DoesVisit (M.view m.old).caller arena (λ u. Stores arena place (word_of order v)) result) }
{
    m.enter(arena)?;
    m.store(place / 8, word_of(order, v));
    m.leave();
    Ok(())
}

/// Puts `v` at `place` where the long is `expected`, in one visit, and answers the long found.
///
/// Refused, in this order: `WrongThread`, `Closed`.
pub(crate) fn exchange_long<M: Memory>(
    m: &mut M,
    arena: ArenaId,
    place: u64,
    order: Order,
    expected: i64,
    v: i64,
) -> Result<i64, Refusal>
    requires { CanTouchPiece (M.view m.old) arena place 8 }
    ensures { Visited (M.view m.old) (M.view m.new)
        (DoesVisit (M.view m.old).caller arena (ExchangesLong order arena place expected v) result) }
{
    m.enter(arena)?;
    let found = m.swap_if(place / 8, word_of(order, expected), word_of(order, v));
    m.leave();
    Ok(long_in(found, order))
}

/// Adds `delta` to the long at `place`, whose lowest byte comes first, in one visit, and answers the long found.
///
/// Refused, in this order: `WrongThread`, `Closed`.
pub(crate) fn add_long<M: Memory>(
    m: &mut M,
    arena: ArenaId,
    place: u64,
    delta: i64,
) -> Result<i64, Refusal>
    requires { CanTouchPiece (M.view m.old) arena place 8 }
    ensures { Visited (M.view m.old) (M.view m.new)
        (DoesVisit (M.view m.old).caller arena (AddsLong arena place delta) result) }
{
    m.enter(arena)?;
    let found = m.add(place / 8, word_of(Order::Little, delta));
    m.leave();
    Ok(long_in(found, Order::Little))
}

/// Puts `v` at `place` where the value there is `expected`, in one visit, and answers the value found.
///
/// Refused, in this order: `WrongThread`, `Closed`.
pub(crate) fn exchange_value<R: Wait, M: Memory>(
    rt: &R,
    m: &mut M,
    arena: ArenaId,
    place: u64,
    order: Order,
    expected: Value,
    v: Value,
) -> Result<Value, Refusal>
    requires piece { CanTouchPiece (M.view m.old) arena place (width_of (kind_of v)) }
    requires kind { kind_of expected ≡ kind_of v }
    ensures { Visited (M.view m.old) (M.view m.new)
        (DoesVisit (M.view m.old).caller arena (Exchanges order arena place expected v) result) }
{
    m.enter(arena)?;
    let found = exchange_inside(rt, m, arena, place, order, expected, v);
    m.leave();
    Ok(found)
}

/// Adds `delta` to the value at `place` in one visit, and answers the value found.
///
/// Refused, in this order: `WrongThread`, `Closed`.
pub(crate) fn add_value<R: Wait, M: Memory>(
    rt: &R,
    m: &mut M,
    arena: ArenaId,
    place: u64,
    order: Order,
    delta: Value,
) -> Result<Value, Refusal>
    requires { CanTouchPiece (M.view m.old) arena place (width_of (kind_of delta)) }
    ensures { Visited (M.view m.old) (M.view m.new)
        (DoesVisit (M.view m.old).caller arena (Adds order arena place delta) result) }
{
    m.enter(arena)?;
    let found = add_inside(rt, m, arena, place, order, delta);
    m.leave();
    Ok(found)
}
