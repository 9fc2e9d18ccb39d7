ghost use Rattle.std.specs.Prelude.{◌≡◌, replicate};
ghost use Rattle.fm_base_bytes.specs.Bytes.{bytes_of};
ghost use Rattle.fm_segment_access.specs.Learnt.{CanTouch, AfterFill};

use crate::piece::{piece_width, put_piece};
use fm_base::{ArenaId, Memory, OrRefused};
use fm_lanes::read;
use std::sync::Wait;

/// The word whose eight bytes are all this one.
#[tactic(auto, using(crate::proofs::Filling::eight_copies))]
pub fn word_of(byte: u8) -> u64
    ensures { bytes_of 8 result ≡ replicate 8 byte }
{
    u64::from(byte) * 0x0101_0101_0101_0101
}

/// Puts `byte` at each of the `size` places from `place` on. Other bytes stay.
///
/// Refused, in this order: `WrongThread`, `Closed`; where `size` is 0 it makes no visit and isn't refused.
/// Where a later piece is refused, the pieces before it stay put.
#[tactic(auto, using(crate::proofs::Filling::puts_copies))]
pub fn fill<R: Wait, M: Memory>(
    rt: &R,
    m: &mut M,
    arena: ArenaId,
    place: u64,
    size: u64,
    byte: u8,
) -> OrRefused<()>
    requires { CanTouch (M.view m.old) arena place size }
    ensures { AfterFill (M.view m.old) (M.view m.new) arena place size byte result }
{
    if size == 0 {
        return Ok(());
    }
    let word = word_of(byte);
    let end = place + size;
    let mut at = place;
    while at < end {
        let width = piece_width(at, end);
        let part = read(word, 0, width);
        put_piece(rt, m, arena, at, width, part)?;
        at += u64::from(width);
    }
    Ok(())
}
