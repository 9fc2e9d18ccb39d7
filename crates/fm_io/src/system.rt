ghost use Rattle.std.specs.Prelude.{◌≤◌, List, length, Option, IfOk};
ghost use Rattle.fm_io.specs.Host.{Question, question, AsksOn};

use std::io;

/// How a read comes by its place in a file.
#[derive(Clone, Copy, Debug, PartialEq, Eq)]
pub enum Way {
    /// The file of that name is opened in place of the one before.
    Open,
    /// The file that is open is sought in.
    Seek,
    /// The last read ended there.
    Follow,
}

/// The files of a system, of which one is open at a time.
///
/// An implementation may tell what it was asked and what it answered. Code that is generic over the
/// trait can't hide a question, and can't make up an answer.
pub trait System {
    /// All questions so far, in their order, where they are told.
    ghost asked: { Self → Option (List Question) };

    /// Reads bytes of the file `name` from the place `at` on, counted in bytes from its beginning.
    ///
    /// A `way` other than `Open` speaks of the file that was opened last.
    fn read_by(&mut self, way: Way, name: &str, at: u64, buf: &mut [u8]) -> io::Result<usize>
        ensures bound { IfOk result (λ n. n ≤ length buf.old) }
        ensures noted { AsksOn (asked self.old) (asked self.new)
            (question way name.now at (length buf.old) result) };

    /// Guesses how many bytes the file `name` has; None where that can't be said. It is no read, and tells nothing.
    fn guess(&self, _name: &str) -> Option<u64> {
        None
    }
}
