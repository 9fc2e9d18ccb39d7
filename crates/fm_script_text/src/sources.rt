ghost use Rattle.std.specs.Prelude.{◌≡◌, ◌+◌, ◌^◌, ◌<◌, ◌≤◌, ◌∷◌, [], ◌==◌, length, nat_lt, position, MatchOption, OnSome};
ghost use Rattle.std.specs.List.{list_all};
ghost use Rattle.fm_script_text.specs.Scripts.{lines_of, is_skipped, numbered, source};

/// The lines of a text that are still to be read.
#[derive(Drop)]
pub struct Sources<'a> {
    pub rest: &'a [u8],
    /// The number of the next line.
    pub number: u64,
    ghost counted: { number + length rest.now < 2 ^ 64 },
}

/// A line that isn't skipped, and its number in the text, from 1.
#[derive(Clone, Copy)]
pub struct Source<'a> {
    pub number: u64,
    pub text: &'a [u8],
}

impl<'a> Sources<'a> {
    /// The lines of this text.
    pub fn of(bytes: &'a [u8]) -> Sources<'a>
        ensures rest { result.rest.now ≡ bytes.now }
        ensures number { result.number ≡ 1 }
    {
        Sources {
            rest: bytes,
            number: 1,
        }
    }

    /// The next line that isn't skipped; `None` where only skipped lines are left.
    pub fn next(&mut self) -> Option<Source<'a>>
        ensures next { MatchOption result
            ((numbered self.old.number (lines_of self.old.rest.now) ≡ [])
            × (self.new.number ≡ self.old.number + length (lines_of self.old.rest.now)))
            (λ s. numbered self.old.number (lines_of self.old.rest.now)
            ≡ source s.number s.text.now ∷ numbered self.new.number (lines_of self.new.rest.now)) }
        ensures shorter { OnSome result (length self.new.rest.now < length self.old.rest.now) }
    {
        while !self.rest.is_empty() {
            let (text, rest) = cut_line(self.rest);
            let number = self.number;
            self.number = number + 1;
            self.rest = rest;
            if !is_skipped(text) {
                return Some(Source { number, text });
            }
        }
        None
    }
}

/// The first line of a text that has one, and the text behind it.
fn cut_line(bytes: &[u8]) -> (&[u8], &[u8])
    requires { 0 < length bytes.now }
    ensures cut { lines_of bytes.now ≡ result.0.now ∷ lines_of result.1.now }
    ensures shorter { length result.1.now < length bytes.now }
{
    match newline_in(bytes) {
        Some(at) => (&bytes[..at], &bytes[at + 1..]),
        None => (bytes, &[]),
    }
}

/// Where the first newline stands.
fn newline_in(bytes: &[u8]) -> Option<usize>
    ensures { result ≡ position (λ b. b == 10) bytes.now }
{
    bytes.iter().position(|b| *b == b'\n')
}

/// Whether the line is empty, or an ASCII comment.
fn is_skipped(line: &[u8]) -> bool
    ensures { result ≡ is_skipped line.now }
{
    line.is_empty() || line[0] == b'#' && is_ascii(&line[1..])
}

fn is_ascii(bytes: &[u8]) -> bool
    ensures { result ≡ list_all (λ b. nat_lt b 128) bytes.now }
{
    bytes.iter().all(|b| *b < 128)
}
