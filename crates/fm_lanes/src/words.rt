ghost use Rattle.std.specs.Prelude.{◌≡◌, length};
ghost use Rattle.fm_base_bytes.specs.Words.{word_count, words_of};

use byteorder::{ByteOrder, LittleEndian};

/// Puts the words of `bytes` into `into`, the lowest byte first; the last word is filled with zeros.
pub fn words_of(bytes: &[u8], into: &mut [u64])
    requires { length into.old ≡ word_count (length bytes.now) }
    ensures { into.new ≡ words_of bytes.now }
{
    let whole = bytes.len() / 8;
    let rest = bytes.len() % 8;
    LittleEndian::read_u64_into(&bytes[..8 * whole], &mut into[..whole]);
    if rest > 0 {
        into[whole] = LittleEndian::read_uint(&bytes[8 * whole..], rest);
    }
}
