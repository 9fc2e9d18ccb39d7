ghost use Rattle.std.specs.Prelude.{◌≡◌, ◌+◌, ◌^◌, ◌<◌, ◌≤◌, Ok, Some};
ghost use Rattle.std.specs.Option.{ForSome};
ghost use Rattle.fm_base.specs.View.{Did};
ghost use Rattle.fm_segment.specs.Access.{IsKnown};
ghost use Rattle.fm_segment_copies.specs.Sides.{IsPieceAt, side};
ghost use Rattle.fm_visit.specs.Acts.{HasActs};
ghost use Rattle.fm_visit.specs.Runs.{ComparesFrom, ComparesPiece, Copies, CopiesPiece};
ghost use Rattle.fm_visit.specs.Values.{AfterCopy, AfterMismatch, AreIn, Reaches, ReachesBoth};

use crate::number::get_piece;
use fm_base::{Memory, Refusal};
use fm_segment::{Segment, answer_of, check_copy};
use fm_segment_access::put_inside;
use fm_segment_copies::{Piece, Side, Way, first_difference, next_piece, way_of};
use std::sync::Wait;

/// Copies `n` bytes, from the offset `src_at` of `src` to the offset `dst_at` of `dst`. Other bytes stay. Both are
/// segments of the arena that the caller is inside.
///
/// Refused, in this order: `ReadOnly` where there is a byte, `Bounds`. Each piece is read and then put; the lowest comes
/// first, but to a higher place the highest.
pub fn copy<R: Wait, M: Memory>(
    rt: &R,
    m: &mut M,
    src: &Segment,
    src_at: u64,
    dst: &Segment,
    dst_at: u64,
    n: u64,
) -> Result<(), Refusal>
    requires { AreIn (M.view m.old) src.now.arena src.now dst.now }
    ensures copied { AfterCopy (M.view m.old) (M.view m.new) src.now src_at dst.now dst_at n result }
    ensures known { IsKnown (M.view m.new) dst.now }
{
    check_copy(src, src_at, dst, dst_at, n)?;
    let from = side_at(src, src_at);
    let to = side_at(dst, dst_at);
    copy_all(rt, m, from, to, n);
    Ok(())
}

/// The offset of the first byte in which `a` differs from `b`. Where one has all bytes of the other, and then more, it
/// is the size of the smaller; where they are equal, -1. Both are segments of the arena that the caller is inside.
///
/// Pieces are read one by one, the lowest first, that of `a` before that of `b`, and none after the first that differs.
pub fn mismatch<M: Memory>(m: &mut M, a: &Segment, b: &Segment) -> i64
    requires { AreIn (M.view m.old) a.now.arena a.now b.now }
    ensures found { AfterMismatch (M.view m.old) (M.view m.new) a.now b.now (Ok result) }
    ensures known { IsKnown (M.view m.new) b.now }
{
    let n = a.size().min(b.size());
    let first = Side {
        arena: a.arena(),
        at: a.first(),
    };
    let second = Side {
        arena: b.arena(),
        at: b.first(),
    };
    answer_of(a.size(), b.size(), compare_all(m, first, second, n))
}

/// The side that begins at an offset of a segment, which ends no earlier.
fn side_at(s: &Segment, offset: u64) -> Side
    requires { offset ≤ s.now.size }
    ensures side { result ≡ side s.now.arena (s.now.first + offset) }
    ensures ends { s.now.first + s.now.size ≤ 2 ^ 40 }
{
    Side {
        arena: s.arena(),
        at: s.first() + offset,
    }
}

/// Copies piece by piece.
fn copy_all<R: Wait, M: Memory>(rt: &R, m: &mut M, from: Side, to: Side, n: u64)
    requires { ReachesBoth (M.view m.old) from to n }
    ensures did { Did (M.view m.old) (M.view m.new)
        (HasActs (M.view m.old).caller (Copies from to n)) }
    ensures inside { (M.view m.new).inside ≡ Some from.arena }
{
    let way = way_of(from, to);
    let mut left = n;
    while left > 0 {
        let piece = next_piece(way, from, to, n, left);
        copy_piece(rt, m, from, to, piece);
        left -= u64::from(piece.width);
    }
}

/// Reads a piece of the source, and then puts it.
fn copy_piece<R: Wait, M: Memory>(rt: &R, m: &mut M, from: Side, to: Side, piece: Piece)
    requires first { Reaches (M.view m.old) from.arena (from.at + piece.offset) piece.width }
    requires second { Reaches (M.view m.old) to.arena (to.at + piece.offset) piece.width }
    requires at { IsPieceAt from to piece }
    ensures did { Did (M.view m.old) (M.view m.new)
        (HasActs (M.view m.old).caller (CopiesPiece from to piece)) }
    ensures inside { (M.view m.new).inside ≡ Some from.arena }
{
    let v = get_piece(m, from.arena, from.at + piece.offset, piece.width);
    put_inside(rt, m, to.arena, to.at + piece.offset, piece.width, v);
}

/// The offset of the first of `n` bytes in which the sides differ, piece by piece.
fn compare_all<M: Memory>(m: &mut M, first: Side, second: Side, n: u64) -> Option<u64>
    requires { ReachesBoth (M.view m.old) first second n }
    ensures did { Did (M.view m.old) (M.view m.new)
        (HasActs (M.view m.old).caller (ComparesFrom first second n n result)) }
    ensures inside { (M.view m.new).inside ≡ Some first.arena }
    ensures below { ForSome result (λ offset. offset < n) }
{
    let mut left = n;
    while left > 0 {
        let piece = next_piece(Way::Up, first, second, n, left);
        if let Some(at) = compare_piece(m, first, second, piece) {
            return Some(piece.offset + u64::from(at));
        }
        left -= u64::from(piece.width);
    }
    None
}

/// Reads a piece of both sides, and answers its first byte that differs.
fn compare_piece<M: Memory>(m: &mut M, first: Side, second: Side, piece: Piece) -> Option<u32>
    requires first { Reaches (M.view m.old) first.arena (first.at + piece.offset) piece.width }
    requires second { Reaches (M.view m.old) second.arena (second.at + piece.offset) piece.width }
    requires at { IsPieceAt first second piece }
    ensures did { Did (M.view m.old) (M.view m.new)
        (HasActs (M.view m.old).caller (ComparesPiece first second piece result)) }
    ensures inside { (M.view m.new).inside ≡ Some first.arena }
{
    let v = get_piece(m, first.arena, first.at + piece.offset, piece.width);
    let w = get_piece(m, second.arena, second.at + piece.offset, piece.width);
    first_difference(v, w, piece.width)
}
