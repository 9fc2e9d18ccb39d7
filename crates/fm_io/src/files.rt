ghost use Rattle.std.specs.Prelude.{◌≡◌, ◌<◌, length, IfOk, IfSome, IsErrOf, Ok, ◌∷◌, []};
ghost use Rattle.fm_io.specs.Files.{HasBytes, TellsPiece};
ghost use Rattle.fm_io.specs.Reads.{read, ReadsOn};
ghost use Rattle.fm_io.specs.View.{FilesView, Leaves};

use crate::fault::Fault;

/// What a read found.
#[derive(Clone, Copy, Debug, PartialEq, Eq)]
pub enum Piece {
    /// This many bytes.
    Got(usize),
    /// The file ends at or before the place.
    End,
    /// There is no file of that name.
    Missing,
}

/// A source of files under names.
///
/// An implementation may tell the bytes under each name, which no call changes. Whether or not it
/// tells, it counts the reads that failed and those that found no file; a count stands still at the
/// greatest `u64`. It may tell its reads too, which each call lengthens by just its own. Code that is
/// generic over the trait can't raise a count by itself, and can't hide a read.
pub trait Files {
    /// The files that are there and all reads so far, where they are told, and how many reads failed and found no file.
    ghost view: { Self → FilesView };

    /// Reads bytes of the file `name` from the place `at` on, counted in bytes from its beginning.
    ///
    /// A piece may be shorter than the buffer wherever the file goes on. What stands in the buffer
    /// behind the piece, or after another answer, is open.
    fn read_at(&mut self, name: &str, at: u64, buf: &mut [u8]) -> Result<Piece, Fault>
        requires { 0 < length buf.old }
        ensures bytes { IfOk result (HasBytes (length buf.old)) }
        ensures content { IfOk result (λ piece.
            IfSome (view self.old).holds (λ files. TellsPiece files name.now at buf.new piece)) }
        ensures noted { ReadsOn (view self.old).reads (view self.new).reads
            (read name.now at (length buf.old) result ∷ []) }
        // A fault or a missing file is answered only where its count shows it, and no other answer changes the count.
        ensures left { Leaves (IsErrOf result Fault.Failed) (result ≡ Ok Piece.Missing)
            (view self.old) (view self.new) };

    /// Guesses how many bytes the file `name` has, for a caller that makes room before it reads; None where that can't be said.
    ///
    /// It is no read, and tells nothing: when the file is read it may have fewer bytes or more, or not be there.
    fn guess(&self, _name: &str) -> Option<u64> {
        None
    }
}
