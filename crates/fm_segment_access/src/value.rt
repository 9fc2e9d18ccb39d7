ghost use Rattle.fm_lanes.specs.Kind.{width_of};
ghost use Rattle.fm_lanes.specs.Value.{kind_of};
ghost use Rattle.fm_segment_access.specs.Learnt.{CanTouch, AfterGetValue, AfterPutValue};

use crate::number::{get_number, put_number};
use fm_base::{ArenaId, Memory, OrRefused};
use fm_lanes::{Order, Value, ValueKind, decode, encode, turned};
use std::sync::Wait;

/// The value of this kind whose bytes stand at `place` in this order.
///
/// Refused, in this order: `WrongThread`, `Closed`. A long with its lowest byte first has a branch of its own: what is
/// found needn't wait for kind and order there. The others share one, so that loops can have the call inside them.
#[inline(always)]
pub fn get_value<M: Memory>(
    m: &mut M,
    arena: ArenaId,
    place: u64,
    kind: ValueKind,
    order: Order,
) -> OrRefused<Value>
    requires { CanTouch (M.view m.old) arena place (width_of kind) }
    ensures { AfterGetValue (M.view m.old) (M.view m.new) arena place kind order result }
{
    match (kind, order) {
        (ValueKind::Long, Order::Little) => {
            get_as(m, arena, place, ValueKind::Long, Order::Little)
        }
        (kind, order) => get_as(m, arena, place, kind, order),
    }
}

/// The same, for one of those branches.
#[inline(always)]
fn get_as<M: Memory>(
    m: &mut M,
    arena: ArenaId,
    place: u64,
    kind: ValueKind,
    order: Order,
) -> OrRefused<Value>
    requires { CanTouch (M.view m.old) arena place (width_of kind) }
    ensures { AfterGetValue (M.view m.old) (M.view m.new) arena place kind order result }
{
    let width = kind.width();
    let number = get_number(m, arena, place, width)?;
    Ok(decode(kind, turned(width, number, order)))
}

/// Puts the bytes of `v` at `place` in this order. Other bytes stay.
///
/// Refused, in this order: `WrongThread`, `Closed`.
pub fn put_value<R: Wait, M: Memory>(
    rt: &R,
    m: &mut M,
    arena: ArenaId,
    place: u64,
    order: Order,
    v: Value,
) -> OrRefused<()>
    requires { CanTouch (M.view m.old) arena place (width_of (kind_of v)) }
    ensures { AfterPutValue (M.view m.old) (M.view m.new) arena place order v result }
{
    let width = v.kind().width();
    put_number(rt, m, arena, place, width, turned(width, encode(v), order))
}
