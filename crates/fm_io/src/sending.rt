ghost use Rattle.std.specs.Prelude.{◌≡◌, ◌<◌, [], length, OnOk, string_bytes};
ghost use Rattle.fm_io.specs.Sending.{Sends};

use crate::fault::Fault;
use crate::sink::Sink;
use crate::writing::write_text;

/// So many bytes pend before they are written.
pub const PIECE: usize = 65_536;

/// Writes the pending text where it has grown to a piece, and empties it then, so that a long text never stands whole in
/// memory. After a fault a prefix of it was written.
#[inline]
#[tactic(auto, using(crate::proofs::Sent::nothing_sent))]
pub fn send_piece<O: Sink>(out: &mut O, text: &mut String) -> Result<(), Fault>
    ensures sends { Sends (O.view out.old) (O.view out.new)
        (string_bytes text.old) (string_bytes text.new) [] result }
    ensures short { OnOk result (length (string_bytes text.new) < PIECE) }
    ensures waits { length (string_bytes text.old) < PIECE → string_bytes text.new ≡ string_bytes
        text.old }
{
    if text.len() < PIECE {
        return Ok(());
    }
    send_rest(out, text)
}

/// Writes all the pending text, and empties it. After a fault a prefix of it was written.
pub fn send_rest<O: Sink>(out: &mut O, text: &mut String) -> Result<(), Fault>
    ensures sends { Sends (O.view out.old) (O.view out.new)
        (string_bytes text.old) (string_bytes text.new) [] result }
    ensures empty { OnOk result (string_bytes text.new ≡ []) }
{
    write_text(out, text.as_str().as_bytes())?;
    text.clear();
    Ok(())
}
