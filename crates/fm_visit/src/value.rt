ghost use Rattle.std.specs.Prelude.{◌≡◌, Some, IfOk};
ghost use Rattle.fm_base.specs.View.{Did};
ghost use Rattle.fm_lanes.specs.Coding.{value_of, bytes_of_value};
ghost use Rattle.fm_lanes.specs.Kind.{width_of};
ghost use Rattle.fm_lanes.specs.Value.{kind_of};
ghost use Rattle.fm_layout.specs.Parts.{IsValue};
ghost use Rattle.fm_segment.specs.Access.{HasKind};
ghost use Rattle.fm_visit.specs.Acts.{HasActs};
ghost use Rattle.fm_visit.specs.Learnt.{IsIn};
ghost use Rattle.fm_visit.specs.Runs.{GetsAs, PutsFrom};
ghost use Rattle.fm_visit.specs.Values.{AfterGet, AfterSet, Reaches};

use crate::number::{get_number, put_number};
use fm_base::{ArenaId, Memory, Refusal};
use fm_lanes::{Order, Value, ValueKind, decode, encode, turned};
use fm_layout::Layout;
use fm_segment::{Segment, coding_of};
use std::sync::Wait;

/// Reads the value of `layout` that stands `offset` bytes from the segment's start. The caller is inside the segment's
/// arena.
///
/// Refused, in this order: `Bounds`, `Misaligned`. A value that crosses a word is read piece by piece, the lowest first;
/// others may write between.
#[inline(always)]
pub fn get<M: Memory>(
    m: &mut M,
    s: &Segment,
    layout: &Layout,
    offset: u64,
) -> Result<Value, Refusal>
    requires inside { IsIn (M.view m.old) s.now.arena s.now }
    requires value { IsValue layout.now }
    ensures got { AfterGet (M.view m.old) (M.view m.new) s.now layout.now offset result }
    ensures kind { IfOk result (λ v. HasKind layout.now (kind_of v)) }
{
    let place = s.place_of(layout, offset)?;
    let (kind, order) = coding_of(layout);
    Ok(get_value(m, s.arena(), place, kind, order))
}

/// Puts `v` as the value of `layout`, `offset` bytes from the segment's start. Other bytes stay. The caller is inside the
/// segment's arena.
///
/// Refused, in this order: `ReadOnly`, `Bounds`, `Misaligned`. A value that crosses a word is put piece by piece, the
/// lowest first.
pub fn set<R: Wait, M: Memory>(
    rt: &R,
    m: &mut M,
    s: &Segment,
    layout: &Layout,
    offset: u64,
    v: Value,
) -> Result<(), Refusal>
    requires inside { IsIn (M.view m.old) s.now.arena s.now }
    requires value { HasKind layout.now (kind_of v) }
    ensures { AfterSet (M.view m.old) (M.view m.new) s.now layout.now offset v result }
{
    let place = s.writable_place_of(layout, offset)?;
    let (_, order) = coding_of(layout);
    put_value(rt, m, s.arena(), place, order, v);
    Ok(())
}

/// The value of this kind whose bytes stand at `place` in this order.
///
/// A long with its lowest byte first has a branch of its own: what is found needn't wait for kind and order there.
#[inline(always)]
pub(crate) fn get_value<M: Memory>(
    m: &mut M,
    arena: ArenaId,
    place: u64,
    kind: ValueKind,
    order: Order,
) -> Value
    requires { Reaches (M.view m.old) arena place (width_of kind) }
    ensures did { Did (M.view m.old) (M.view m.new)
        (HasActs (M.view m.old).caller (GetsAs (value_of kind order) arena place (width_of kind) result)) }
    ensures inside { (M.view m.new).inside ≡ Some arena }
{
    match (kind, order) {
        (ValueKind::Long, Order::Little) => {
            get_as(m, arena, place, ValueKind::Long, Order::Little)
        }
        (kind, order) => get_as(m, arena, place, kind, order),
    }
}

/// The same, for one of those branches.
#[inline(always)]
fn get_as<M: Memory>(m: &mut M, arena: ArenaId, place: u64, kind: ValueKind, order: Order) -> Value
    requires { Reaches (M.view m.old) arena place (width_of kind) }
    ensures did { Did (M.view m.old) (M.view m.new)
        (HasActs (M.view m.old).caller (GetsAs (value_of kind order) arena place (width_of kind) result)) }
    ensures inside { (M.view m.new).inside ≡ Some arena }
{
    let width = kind.width();
    let number = get_number(m, arena, place, width);
    decode(kind, turned(width, number, order))
}

/// Puts the bytes of `v` at `place` in this order. Other bytes stay.
pub(crate) fn put_value<R: Wait, M: Memory>(
    rt: &R,
    m: &mut M,
    arena: ArenaId,
    place: u64,
    order: Order,
    v: Value,
)
    requires { Reaches (M.view m.old) arena place (width_of (kind_of v)) }
    ensures did { Did (M.view m.old) (M.view m.new)
        (HasActs (M.view m.old).caller (PutsFrom arena place (bytes_of_value order v))) }
    ensures inside { (M.view m.new).inside ≡ Some arena }
{
    let width = v.kind().width();
    put_number(rt, m, arena, place, width, turned(width, encode(v), order));
}
