ghost use Rattle.std.specs.Prelude.{◌≡◌, ◌+◌, ◌*◌, ◌/◌, ◌%◌, ◌^◌, ◌<◌, ◌≤◌, Some};
ghost use Rattle.fm_base.specs.View.{Did};
ghost use Rattle.fm_base.specs.Visits as visits;
ghost use Rattle.fm_base.specs.Does.{CanReach};
ghost use Rattle.fm_segment_access.specs.Learnt.{CanTouchPiece, Visited};
ghost use Rattle.fm_segment_access.specs.Pieces.{DoesGetPiece, DoesPutPiece, DoesPutInside};

use fm_base::{ArenaId, Memory, OrRefused};
use fm_lanes::{bits, mask, read};
use std::sync::Wait;

/// How many of the bytes from `place` up to `end` lie in the word of `place`.
pub fn piece_width(place: u64, end: u64) -> u32
    requires { place < end }
    ensures value { result ≡ visits.piece_width place end }
    ensures some { 1 ≤ result }
    ensures within { place % 8 + result ≤ 8 }
    ensures before_end { place + result ≤ end }
{
    (end - place).min(8 - place % 8) as u32
}

/// The number that the `width` bytes from `place` on make, the lowest first, which lie in one word.
///
/// Refused, in this order: `WrongThread`, `Closed`.
#[inline(always)]
pub fn get_piece<M: Memory>(m: &mut M, arena: ArenaId, place: u64, width: u32) -> OrRefused<u64>
    requires { CanTouchPiece (M.view m.old) arena place width }
    ensures { Visited (M.view m.old) (M.view m.new)
        (DoesGetPiece (M.view m.old).caller arena place width result) }
{
    m.enter(arena)?;
    let word = m.load(place / 8);
    m.leave();
    Ok(read(word, (place % 8) as u32, width))
}

/// Puts the `width` bytes of `v` into the word of `place`, inside the arena: a whole word at once, else by tries.
#[tactic(auto, using(crate::proofs::Patching::under))]
pub fn put_inside<R: Wait, M: Memory>(
    rt: &R,
    m: &mut M,
    arena: ArenaId,
    place: u64,
    width: u32,
    v: u64,
)
    requires inside { (M.view m.old).inside ≡ Some arena }
    requires reach { CanReach (M.view m.old) (place / 8) }
    requires some { 1 ≤ width }
    requires within { place % 8 + width ≤ 8 }
    requires fits { v < 2 ^ (8 * width) }
    ensures did { Did (M.view m.old) (M.view m.new)
        (DoesPutInside (M.view m.old).caller arena place width v) }
    ensures inside { (M.view m.new).inside ≡ Some arena }
{
    if width == 8 {
        m.store(place / 8, v);
    } else {
        let at = (place % 8) as u32;
        m.patch(rt, place / 8, mask(at, width), bits(at, width, v));
    }
}

/// Puts the `width` bytes of `v` at `place`, the lowest first, which lie in one word. Other bytes stay.
///
/// Refused, in this order: `WrongThread`, `Closed`. A refused call puts nothing.
pub fn put_piece<R: Wait, M: Memory>(
    rt: &R,
    m: &mut M,
    arena: ArenaId,
    place: u64,
    width: u32,
    v: u64,
) -> OrRefused<()>
    requires piece { CanTouchPiece (M.view m.old) arena place width }
    requires fits { v < 2 ^ (8 * width) }
    ensures { Visited (M.view m.old) (M.view m.new)
        (DoesPutPiece (M.view m.old).caller arena place width v result) }
{
    m.enter(arena)?;
    put_inside(rt, m, arena, place, width, v);
    m.leave();
    Ok(())
}
