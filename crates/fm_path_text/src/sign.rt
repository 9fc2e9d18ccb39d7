ghost use Rattle.std.specs.Prelude.{◌≡◌};
ghost use Rattle.fm_path_text.specs.Reader.{sign_of, IsSound};

/// What a byte is to a path's text.
#[derive(Clone, Copy, Debug, PartialEq, Eq)]
pub enum Sign {
    Dot,
    Hash,
    Open,
    Close,
    Colon,
    Minus,
    /// A digit's value, below 10.
    Digit(u8),
    /// An ASCII letter or `_`.
    Letter(u8),
    Other,
}

impl Sign {
    /// What this byte is.
    pub fn of(byte: u8) -> Sign
        ensures sign { result ≡ sign_of byte }
        ensures sound { IsSound result }
    {
        match byte {
            b'.' => Sign::Dot,
            b'#' => Sign::Hash,
            b'[' => Sign::Open,
            b']' => Sign::Close,
            b':' => Sign::Colon,
            b'-' => Sign::Minus,
            b'0'..=b'9' => Sign::Digit(byte - b'0'),
            b'a'..=b'z' | b'A'..=b'Z' | b'_' => Sign::Letter(byte),
            _ => Sign::Other,
        }
    }
}
