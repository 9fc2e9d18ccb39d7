ghost use Rattle.std.specs.Prelude.{◌≡◌, ◌≤◌, ◌<◌, ◌+◌, ◌++◌, length, IfSome, OnOk};
ghost use Rattle.fm_base_bytes.specs.Bytes.{bytes_of};
ghost use Rattle.fm_base.specs.View.{Did};
ghost use Rattle.fm_segment_access.specs.Learnt.{CanTouch};
ghost use Rattle.fm_text.specs.Getting.{DoesLook};
ghost use Rattle.fm_text.specs.Texts.{IsText, text_bytes, zero_at};

use fm_base::{ArenaId, Memory, Refusal};
use fm_segment_access::{get_piece, piece_width};
use std::alloc::{AllocError, Global};

/// For so many bytes room is made at first, where there are as many.
const ROOM: u64 = 64;

/// The text from `place` on, up to the first byte that is 0, in `size` bytes. Each byte is looked at once for a 0, and
/// once for UTF-8.
///
/// Refused, in this order: `WrongThread`, `Closed`, `NoZero`, `NotText`. `Memory` may come at any piece.
pub(crate) fn get_text_at<M: Memory>(
    alloc: Global,
    m: &mut M,
    arena: ArenaId,
    place: u64,
    size: u64,
) -> Result<String, Refusal>
    requires { CanTouch (M.view m.old) arena place size }
    ensures { Did (M.view m.old) (M.view m.new)
        (DoesLook (M.view m.old).caller arena place (place + size) (text_bytes result)) }
{
    let end = place + size;
    let mut bytes = Vec::new(alloc);
    let mut at = place;
    while at < end {
        let width = piece_width(at, end);
        let piece = get_piece(m, arena, at, width)?;
        let seen = bytes.len();
        push_number(&mut bytes, piece, width as usize, size.min(ROOM) as usize)?;
        if let Some(n) = zero_in(&bytes[seen..]) {
            bytes.truncate(seen + n);
            return text_of(bytes);
        }
        at += u64::from(width);
    }
    Err(Refusal::NoZero)
}

/// Puts the lowest `width` bytes of a number behind others, the lowest first. There is room for `room` bytes in all
/// then.
fn push_number(
    bytes: &mut Vec<u8>,
    number: u64,
    width: usize,
    room: usize,
) -> Result<(), AllocError>
    requires { width ≤ 8 }
    ensures { OnOk result (bytes.new.items ≡ bytes.old.items ++ bytes_of width number) }
{
    bytes.reserve(room.saturating_sub(bytes.len()))?;
    bytes.extend_from_slice(&number.to_le_bytes()[..width])
}

/// The index of the first byte that is 0.
fn zero_in(bytes: &[u8]) -> Option<usize>
    ensures first { result ≡ zero_at bytes.now }
    ensures within { IfSome result (λ n. n < length bytes.now) }
{
    bytes.iter().position(|b| *b == 0)
}

/// The text that these bytes are. Refused: `NotText`.
fn text_of(bytes: Vec<u8>) -> Result<String, Refusal>
    ensures { IsText bytes.items (text_bytes result) }
{
    match String::from_utf8(bytes) {
        Ok(text) => Ok(text),
        Err(error) => Err(Refusal::NotText(error.utf8_error().valid_up_to() as u64)),
    }
}
