ghost use Rattle.std.specs.Prelude.{◌≡◌, ◌||◌, ◌↔◌, IsTrue};
ghost use Rattle.fm_layout.specs.Name.{is_digit, is_letter, IsName};
ghost use Rattle.std.specs.List.{list_all};

/// The greatest number of bytes of a name.
const LONGEST: usize = 64;

/// Whether the text may name a layout: 1 to 64 ASCII letters, digits and `_`, no digit first.
pub fn is_name(text: &str) -> bool
    ensures { IsTrue result ↔ IsName text.now }
{
    let bytes = text.as_bytes();
    if bytes.is_empty() || bytes.len() > LONGEST {
        return false;
    }
    is_letter(bytes[0]) && is_name_end(&bytes[1..])
}

/// Whether these bytes are ASCII letters, digits and `_`.
fn is_name_end(bytes: &[u8]) -> bool
    ensures { result ≡ list_all (λ c. is_letter c || is_digit c) bytes.now }
{
    bytes.iter().all(|c| is_letter(*c) || c.is_ascii_digit())
}

/// Whether this byte is an ASCII letter or `_`.
fn is_letter(byte: u8) -> bool
    ensures { result ≡ is_letter byte }
{
    byte.is_ascii_alphabetic() || byte == b'_'
}
