ghost use Rattle.std.specs.Prelude.{◌≡◌, ◌+◌, ◌/◌, ◌%◌, ◌<◌, ◌≤◌, Some};
ghost use Rattle.fm_base.specs.Does.{CanReach};
ghost use Rattle.fm_base.specs.View.{Did};
ghost use Rattle.fm_base_bytes.specs.Bytes.{bytes_of, number_of};
ghost use Rattle.fm_visit.specs.Acts.{HasActs};
ghost use Rattle.fm_visit.specs.Runs.{GetsAs, PutsFrom};
ghost use Rattle.fm_visit.specs.Values.{Reaches, ReadsPart};

use fm_base::{ArenaId, Memory};
use fm_lanes::read;
use fm_segment_access::put_inside;
use std::sync::Wait;

/// The number that the `width` bytes from `place` on make, the lowest first, which lie in one word.
#[inline(always)]
pub(crate) fn get_piece<M: Memory>(m: &mut M, arena: ArenaId, place: u64, width: u32) -> u64
    requires inside { (M.view m.old).inside ≡ Some arena }
    requires reach { CanReach (M.view m.old) (place / 8) }
    requires some { 1 ≤ width }
    requires within { place % 8 + width ≤ 8 }
    ensures { ReadsPart (M.view m.old) (M.view m.new) arena place width result }
{
    let _ = arena;
    read(m.load(place / 8), (place % 8) as u32, width)
}

/// The number that the `width` bytes from `place` on make, the lowest first: 1 to 8 bytes, which may cross a word's end.
#[inline(always)]
pub(crate) fn get_number<M: Memory>(m: &mut M, arena: ArenaId, place: u64, width: u32) -> u64
    requires reach { Reaches (M.view m.old) arena place width }
    requires some { 1 ≤ width }
    requires few { width ≤ 8 }
    ensures did { Did (M.view m.old) (M.view m.new)
        (HasActs (M.view m.old).caller (GetsAs number_of arena place width result)) }
    ensures inside { (M.view m.new).inside ≡ Some arena }
{
    if place % 8 + u64::from(width) <= 8 {
        get_piece(m, arena, place, width)
    } else {
        get_across(m, arena, place, width)
    }
}

/// The same, for a number that crosses a word's end: the piece up to there, and the one behind it.
fn get_across<M: Memory>(m: &mut M, arena: ArenaId, place: u64, width: u32) -> u64
    requires reach { Reaches (M.view m.old) arena place width }
    requires few { width ≤ 8 }
    requires across { 8 < place % 8 + width }
    ensures did { Did (M.view m.old) (M.view m.new)
        (HasActs (M.view m.old).caller (GetsAs number_of arena place width result)) }
    ensures inside { (M.view m.new).inside ≡ Some arena }
{
    let first = (8 - place % 8) as u32;
    let low = get_piece(m, arena, place, first);
    let high = get_piece(m, arena, place + u64::from(first), width - first);
    low + (high << (8 * first))
}

/// Puts the lowest `width` bytes of `number` at `place`, the lowest first: 1 to 8 bytes, which may cross a word's end.
/// Other bytes stay.
#[inline(always)]
pub(crate) fn put_number<R: Wait, M: Memory>(
    rt: &R,
    m: &mut M,
    arena: ArenaId,
    place: u64,
    width: u32,
    number: u64,
)
    requires reach { Reaches (M.view m.old) arena place width }
    requires some { 1 ≤ width }
    requires few { width ≤ 8 }
    ensures did { Did (M.view m.old) (M.view m.new)
        (HasActs (M.view m.old).caller (PutsFrom arena place (bytes_of width number))) }
    ensures inside { (M.view m.new).inside ≡ Some arena }
{
    if place % 8 + u64::from(width) <= 8 {
        put_inside(rt, m, arena, place, width, read(number, 0, width));
    } else {
        put_across(rt, m, arena, place, width, number);
    }
}

/// The same, for a number that crosses a word's end.
fn put_across<R: Wait, M: Memory>(
    rt: &R,
    m: &mut M,
    arena: ArenaId,
    place: u64,
    width: u32,
    number: u64,
)
    requires reach { Reaches (M.view m.old) arena place width }
    requires few { width ≤ 8 }
    requires across { 8 < place % 8 + width }
    ensures did { Did (M.view m.old) (M.view m.new)
        (HasActs (M.view m.old).caller (PutsFrom arena place (bytes_of width number))) }
    ensures inside { (M.view m.new).inside ≡ Some arena }
{
    let first = (8 - place % 8) as u32;
    let rest = width - first;
    put_inside(rt, m, arena, place, first, read(number, 0, first));
    let at = place + u64::from(first);
    put_inside(rt, m, arena, at, rest, read(number, first, rest));
}
