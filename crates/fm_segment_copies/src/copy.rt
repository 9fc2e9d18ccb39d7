ghost use Rattle.fm_segment_access.specs.Learnt.{Visited};
ghost use Rattle.fm_segment_copies.specs.Sides.{side};
ghost use Rattle.fm_segment_copies.specs.Copies.{DoesCopyPiece};
ghost use Rattle.fm_segment_copies.specs.Learnt.{CanTouchBoth, CanTouchPieces, AfterCopy};

use crate::side::{Piece, Side, is_wrong_thread, next_piece, way_of};
use fm_base::{ArenaId, Memory, Refusal};
use fm_segment_access::{get_piece, put_piece};
use std::sync::Wait;

/// Reads a piece of the source, and then puts it.
#[tactic(auto, using(fm_segment_access::proofs::Touching::touch_again))]
fn copy_piece<R: Wait, M: Memory>(
    rt: &R,
    m: &mut M,
    from: Side,
    to: Side,
    piece: Piece,
) -> Result<(), Refusal>
    requires { CanTouchPieces (M.view m.old) from to piece }
    ensures { Visited (M.view m.old) (M.view m.new)
        (DoesCopyPiece (M.view m.old).caller from to piece result) }
{
    let v = get_piece(m, from.arena, from.at + piece.offset, piece.width)?;
    put_piece(rt, m, to.arena, to.at + piece.offset, piece.width, v)
}

/// Copies `n` bytes, from the place `src_at` of one arena to the place `dst_at` of one.
///
/// The lowest piece comes first, but inside one arena to a higher place the highest. In a piece the source is entered
/// first. Refused, in this order: `WrongThread`, `Closed`. Where a later piece is refused, the pieces before it stay
/// done. A call over 0 bytes makes no access.
#[tactic(auto, using(crate::proofs::Touching::way_starts, crate::proofs::Copying::copy_goes_on))]
pub fn copy_range<R: Wait, M: Memory>(
    rt: &R,
    m: &mut M,
    src: ArenaId,
    src_at: u64,
    dst: ArenaId,
    dst_at: u64,
    n: u64,
) -> Result<(), Refusal>
    requires { CanTouchBoth (M.view m.old) (side src src_at) (side dst dst_at) n }
    ensures { AfterCopy (M.view m.old) (M.view m.new) (side src src_at) (side dst dst_at) n result }
{
    let from = Side {
        arena: src,
        at: src_at,
    };
    let to = Side {
        arena: dst,
        at: dst_at,
    };
    if is_wrong_thread(m, from, to, n) {
        return Err(Refusal::WrongThread);
    }
    let way = way_of(from, to);
    let mut left = n;
    while left > 0 {
        let piece = next_piece(way, from, to, n, left);
        copy_piece(rt, m, from, to, piece)?;
        left -= u64::from(piece.width);
    }
    Ok(())
}
