ghost use Rattle.std.specs.Prelude.{◌≡◌, ◌+◌, ◌%◌, ◌<◌};
ghost use Rattle.fm_base.specs.View.{Did};
ghost use Rattle.fm_base_bytes.specs.Bytes.{bytes_of};
ghost use Rattle.fm_segment_access.specs.Learnt.{CanTouchNumber, AfterGet, AfterPut};
ghost use Rattle.fm_segment_access.specs.Ranges.{DoesGet, DoesPut};

use crate::piece::{get_piece, piece_width, put_piece};
use fm_base::{ArenaId, Memory, OrRefused};
use fm_lanes::read;
use std::sync::Wait;

/// The number that the `width` bytes from `place` on make, the lowest first: 1 to 8 bytes, which may cross a word's end.
///
/// Refused, in this order: `WrongThread`, `Closed`. Where the second piece is refused, the first was read.
#[inline(always)]
pub fn get_number<M: Memory>(m: &mut M, arena: ArenaId, place: u64, width: u32) -> OrRefused<u64>
    requires { CanTouchNumber (M.view m.old) arena place width }
    ensures { AfterGet (M.view m.old) (M.view m.new) arena place width result }
{
    if place % 8 + u64::from(width) <= 8 {
        get_piece(m, arena, place, width)
    } else {
        get_across(m, arena, place, width)
    }
}

/// The same, for a number that crosses a word's end: the piece up to there, and the one behind it.
fn get_across<M: Memory>(m: &mut M, arena: ArenaId, place: u64, width: u32) -> OrRefused<u64>
    requires touch { CanTouchNumber (M.view m.old) arena place width }
    requires across { 8 < place % 8 + width }
    ensures { Did (M.view m.old) (M.view m.new)
        (DoesGet (M.view m.old).caller arena place width result) }
{
    let first = (8 - place % 8) as u32;
    let low = get_piece(m, arena, place, first)?;
    let high = get_piece(m, arena, place + u64::from(first), width - first)?;
    Ok(low + (high << (8 * first)))
}

/// Puts the lowest `width` bytes of `number` at `place`, the lowest first: 1 to 8 bytes, which may cross a word's end.
/// Other bytes stay.
///
/// Refused, in this order: `WrongThread`, `Closed`. Where the second piece is refused, the first stays put.
#[inline(always)]
pub fn put_number<R: Wait, M: Memory>(
    rt: &R,
    m: &mut M,
    arena: ArenaId,
    place: u64,
    width: u32,
    number: u64,
) -> OrRefused<()>
    requires { CanTouchNumber (M.view m.old) arena place width }
    ensures { AfterPut (M.view m.old) (M.view m.new) arena place (bytes_of width number) result }
{
    if place % 8 + u64::from(width) <= 8 {
        put_piece(rt, m, arena, place, width, read(number, 0, width))
    } else {
        put_across(rt, m, arena, place, width, number)
    }
}

/// The same, piece by piece, for a number that crosses a word's end.
#[tactic(auto, using(crate::proofs::Putting::puts_number))]
fn put_across<R: Wait, M: Memory>(
    rt: &R,
    m: &mut M,
    arena: ArenaId,
    place: u64,
    width: u32,
    number: u64,
) -> OrRefused<()>
    requires { CanTouchNumber (M.view m.old) arena place width }
    ensures { Did (M.view m.old) (M.view m.new)
        (DoesPut (M.view m.old).caller arena place (bytes_of width number) result) }
{
    let end = place + u64::from(width);
    let mut at = place;
    while at < end {
        let piece = piece_width(at, end);
        let part = read(number, (at - place) as u32, piece);
        put_piece(rt, m, arena, at, piece, part)?;
        at += u64::from(piece);
    }
    Ok(())
}
