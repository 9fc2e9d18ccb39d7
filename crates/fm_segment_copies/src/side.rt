ghost use Rattle.std.specs.Prelude.{◌≡◌, ◌+◌, ◌%◌, ◌^◌, ◌<◌, ◌≤◌, true, false};
ghost use Rattle.fm_base.specs.Visits as visits;
ghost use Rattle.fm_segment_copies.specs.Sides as sides;
ghost use Rattle.fm_segment_copies.specs.Sides.{IsWay, IsPieceOf, IsForOthers, MayUseBoth};

use fm_base::{ArenaId, Memory};
use fm_segment_access::{may_use, piece_width};

/// One of two ranges: its bytes stand in the arena from the place `at` on.
#[derive(Clone, Copy)]
pub struct Side {
    pub arena: ArenaId,
    pub at: u64,
}

/// Which piece comes first.
#[derive(Clone, Copy)]
pub enum Way {
    /// The lowest.
    Up,
    /// The highest.
    Down,
}

/// Bytes of both ranges that lie in one word of each side, from `offset` on.
#[derive(Clone, Copy)]
pub struct Piece {
    pub offset: u64,
    pub width: u32,
}

/// Whether there is a byte, and the caller may not use both sides.
pub fn is_wrong_thread<M: Memory>(m: &M, from: Side, to: Side, count: u64) -> bool
    ensures yes { result ≡ true → IsForOthers (M.view m.now).caller from to count }
    ensures no { result ≡ false → 0 < count → MayUseBoth (M.view m.now).caller from to }
{
    count > 0 && !(may_use(m, from.arena) && may_use(m, to.arena))
}

/// The way of a copy: bytes that move to a higher place of the same arena are read before they are overwritten.
pub fn way_of(from: Side, to: Side) -> Way
    ensures { IsWay from to result }
{
    if from.arena == to.arena && from.at < to.at {
        Way::Down
    } else {
        Way::Up
    }
}

/// How many of the first of `left` bytes lie in one word of each side.
fn first_width(source: u64, target: u64, left: u64) -> u32
    requires some { 1 ≤ left }
    requires small { source + left ≤ 2 ^ 40 }
    ensures { result ≡ visits.first_width source target left }
{
    piece_width(source, source + left).min((8 - target % 8) as u32)
}

/// How many of the last of `left` bytes lie in one word of each side.
fn last_width(source: u64, target: u64, left: u64) -> u32
    requires some { 1 ≤ left }
    requires source { source + left ≤ 2 ^ 40 }
    requires target { target + left ≤ 2 ^ 40 }
    ensures { result ≡ visits.last_width source target left }
{
    left.min((source + left - 1) % 8 + 1)
        .min((target + left - 1) % 8 + 1) as u32
}

/// The next piece of `count` bytes, of which `left` are left.
pub fn next_piece(way: Way, from: Side, to: Side, count: u64, left: u64) -> Piece
    requires some { 1 ≤ left }
    requires left { left ≤ count }
    requires source { from.at + count ≤ 2 ^ 40 }
    requires target { to.at + count ≤ 2 ^ 40 }
    ensures value { result ≡ sides.next_piece way from to count left }
    ensures piece { IsPieceOf from to count left result }
{
    match way {
        Way::Up => {
            let offset = count - left;
            let width = first_width(from.at + offset, to.at + offset, left);
            Piece { offset, width }
        }
        Way::Down => {
            let width = last_width(from.at, to.at, left);
            let offset = left - u64::from(width);
            Piece { offset, width }
        }
    }
}
