ghost use Rattle.std.specs.Prelude.{◌≡◌, ◌≤◌, ◌+◌, length, take, drop};
ghost use Rattle.fm_base_bytes.specs.Bytes.{number_of};
ghost use Rattle.fm_segment_access.specs.Learnt.{CanTouch, AfterPut};
ghost use Rattle.fm_text.specs.Texts.{zero_ended};

use byteorder::{ByteOrder, LittleEndian};
use fm_base::{ArenaId, Memory, OrRefused};
use fm_segment_access::{piece_width, put_piece};
use std::sync::Wait;

/// Puts `bytes` and a 0 behind them, from `place` on, as one run of pieces. Other bytes stay.
///
/// Refused, in this order: `WrongThread`, `Closed`. Where a later piece is refused, the pieces before it stay put.
pub(crate) fn put_zero_ended<R: Wait, M: Memory>(
    rt: &R,
    m: &mut M,
    arena: ArenaId,
    place: u64,
    bytes: &[u8],
) -> OrRefused<()>
    requires { CanTouch (M.view m.old) arena place (length bytes.now + 1) }
    ensures { AfterPut (M.view m.old) (M.view m.new) arena place (zero_ended bytes.now) result }
{
    let end = place + bytes.len() as u64 + 1;
    let mut at = place;
    while at < end {
        let width = piece_width(at, end);
        let part = part_at(bytes, (at - place) as usize, width as usize);
        put_piece(rt, m, arena, at, width, part)?;
        at += u64::from(width);
    }
    Ok(())
}

/// The number that `width` bytes from the index `at` on make, the lowest first, where a 0 stands behind the last byte.
fn part_at(bytes: &[u8], at: usize, width: usize) -> u64
    requires some { 1 ≤ width }
    requires few { width ≤ 8 }
    requires within { at + width ≤ length bytes.now + 1 }
    ensures { result ≡ number_of (take width (drop at (zero_ended bytes.now))) }
{
    let left = &bytes[at..];
    if width <= left.len() {
        LittleEndian::read_uint(left, width)
    } else if left.is_empty() {
        0
    } else {
        LittleEndian::read_uint(left, left.len())
    }
}
