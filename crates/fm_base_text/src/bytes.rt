ghost use Rattle.std.specs.Prelude.{◌≡◌, ◌≤◌, ◌++◌, length, OnOk, string_bytes};
ghost use Rattle.fm_base_text.specs.Hex.{hex_text};
ghost use Rattle.hex.specs.Hex.{encode_lower};

use std::alloc::AllocError;
use std::str;

/// How many bytes are spelled at once: their digits wait on the stack.
const PIECE: usize = 16;

/// Adds a space and the bytes as digits of base 16, in lower case; nothing where there are none.
pub fn push_bytes(text: &mut String, bytes: &[u8]) -> Result<(), AllocError>
    ensures { OnOk result (string_bytes text.new ≡ string_bytes text.old ++ hex_text bytes.now) }
{
    if bytes.is_empty() {
        return Ok(());
    }
    text.push(' ')?;
    let mut rest = bytes;
    while !rest.is_empty() {
        let (piece, more) = rest.split_at(rest.len().min(PIECE));
        push_piece(text, piece)?;
        rest = more;
    }
    Ok(())
}

/// Adds the digits of a few bytes.
fn push_piece(text: &mut String, piece: &[u8]) -> Result<(), AllocError>
    requires { length piece.now ≤ 16 }
    ensures { OnOk result (string_bytes text.new ≡ string_bytes text.old ++ encode_lower piece.now) }
{
    let mut room = [0u8; 2 * PIECE];
    let digits = &mut room[..2 * piece.len()];
    if hex::encode_to_slice(piece, digits).is_err() {
        unreachable!();
    }
    match str::from_utf8(digits) {
        Ok(digits) => text.push_str(digits),
        Err(_) => unreachable!(),
    }
}
