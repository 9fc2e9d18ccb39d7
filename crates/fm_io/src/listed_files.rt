ghost use Rattle.std.specs.Prelude.{◌≡◌, ◌<◌, ◌≤◌, ℕ, List, length, min, None, Some, MatchOption};
ghost use Rattle.fm_io.specs.Files.{file_of, contents_of, HasBytes, TellsPiece, IsPieceOf, TellsLongest, IsLongest};

use crate::files::Piece;

/// The bytes under a name; where it is listed twice, the first.
fn bytes_under<'a>(files: &'a [(String, Vec<u8>)], name: &str) -> Option<&'a [u8]>
    ensures { MatchOption result (file_of (contents_of files.now) name.now ≡ None)
        (λ bytes. file_of (contents_of files.now) name.now ≡ Some bytes.now) }
{
    for file in files {
        if name == file.0.as_str() {
            return Some(file.1.as_slice());
        }
    }
    None
}

/// All bytes from the place on, but no more than there is room for, and no more than `most`.
fn read_bytes(bytes: &[u8], at: u64, buf: &mut [u8], most: usize) -> Piece
    requires room { 0 < length buf.old }
    requires most { 0 < most }
    ensures bytes { HasBytes (length buf.old) result }
    ensures most { HasBytes most result }
    ensures content { IsPieceOf bytes.now at buf.new result }
    ensures longest { IsLongest bytes.now at (min (length buf.old) most) result }
{
    let Ok(at) = usize::try_from(at) else {
        return Piece::End;
    };
    if bytes.len() <= at {
        return Piece::End;
    }
    let rest = &bytes[at..];
    let n = rest.len().min(buf.len()).min(most);
    buf[..n].copy_from_slice(&rest[..n]);
    Piece::Got(n)
}

/// Reads a piece of the file of that name: all bytes from the place on, but no more than there is room for and than `most`.
pub fn read_listed(
    files: &[(String, Vec<u8>)],
    name: &str,
    at: u64,
    buf: &mut [u8],
    most: usize,
) -> Piece
    requires room { 0 < length buf.old }
    requires most { 0 < most }
    ensures bytes { HasBytes (length buf.old) result }
    ensures most { HasBytes most result }
    ensures content { TellsPiece (contents_of files.now) name.now at buf.new result }
    ensures longest { TellsLongest (contents_of files.now) name.now at (min (length buf.old) most)
        result }
{
    match bytes_under(files, name) {
        Some(bytes) => read_bytes(bytes, at, buf, most),
        None => Piece::Missing,
    }
}
