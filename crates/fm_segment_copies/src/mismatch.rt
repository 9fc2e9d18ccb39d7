ghost use Rattle.std.specs.Prelude.{◌*◌, ◌^◌, ◌<◌, ◌≤◌};
ghost use Rattle.fm_segment_access.specs.Learnt.{Visited};
ghost use Rattle.fm_segment_copies.specs.Sides.{side};
ghost use Rattle.fm_segment_copies.specs.Comparisons.{IsDifference, DoesComparePiece};
ghost use Rattle.fm_segment_copies.specs.Learnt.{CanTouchBoth, CanTouchPieces, AfterCompare};

use crate::side::{Piece, Side, Way, is_wrong_thread, next_piece};
use fm_base::{ArenaId, Memory, Refusal};
use fm_lanes::read;
use fm_segment_access::get_piece;

/// The lowest byte in which two numbers of `width` bytes differ.
#[tactic(auto, using(crate::proofs::Differences::none_differs, crate::proofs::Differences::one_more_agrees))]
pub fn first_difference(v: u64, w: u64, width: u32) -> Option<u32>
    requires width { width ≤ 8 }
    requires first { v < 2 ^ (8 * width) }
    requires second { w < 2 ^ (8 * width) }
    ensures { IsDifference width v w result }
{
    if v == w {
        return None;
    }
    for i in 0..width {
        if read(v, i, 1) != read(w, i, 1) {
            return Some(i);
        }
    }
    None
}

/// Reads a piece of both sides, and answers its first byte that differs.
#[tactic(auto, using(fm_segment_access::proofs::Touching::touch_again))]
fn compare_piece<M: Memory>(
    m: &mut M,
    first: Side,
    second: Side,
    piece: Piece,
) -> Result<Option<u32>, Refusal>
    requires { CanTouchPieces (M.view m.old) first second piece }
    ensures { Visited (M.view m.old) (M.view m.new)
        (DoesComparePiece (M.view m.old).caller first second piece result) }
{
    let v = get_piece(m, first.arena, first.at + piece.offset, piece.width)?;
    let w = get_piece(m, second.arena, second.at + piece.offset, piece.width)?;
    Ok(first_difference(v, w, piece.width))
}

/// The offset of the first byte in which `n` bytes of one arena, from `a_at` on, and of one, from `b_at` on, differ.
///
/// The lowest piece comes first, and none after the first that differs. In a piece `a` is entered first. Refused, in
/// this order: `WrongThread`, `Closed`. A call over 0 bytes makes no access.
#[tactic(auto, using(crate::proofs::Touching::way_starts))]
pub fn mismatch_range<M: Memory>(
    m: &mut M,
    a: ArenaId,
    a_at: u64,
    b: ArenaId,
    b_at: u64,
    n: u64,
) -> Result<Option<u64>, Refusal>
    requires { CanTouchBoth (M.view m.old) (side a a_at) (side b b_at) n }
    ensures { AfterCompare (M.view m.old) (M.view m.new) (side a a_at) (side b b_at) n result }
{
    let first = Side { arena: a, at: a_at };
    let second = Side { arena: b, at: b_at };
    if is_wrong_thread(m, first, second, n) {
        return Err(Refusal::WrongThread);
    }
    let mut left = n;
    while left > 0 {
        let piece = next_piece(Way::Up, first, second, n, left);
        if let Some(at) = compare_piece(m, first, second, piece)? {
            return Ok(Some(piece.offset + u64::from(at)));
        }
        left -= u64::from(piece.width);
    }
    Ok(None)
}
