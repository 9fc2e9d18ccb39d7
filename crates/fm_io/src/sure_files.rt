ghost use Rattle.std.specs.Prelude.{◌≡◌, ◌<◌, length, IfOk, IsErrOf, IsOk, Ok};
ghost use Rattle.fm_io.specs.Count.{Raised};
ghost use Rattle.fm_io.specs.Files.{contents_of, HasBytes, TellsLongest, TellsPiece};
ghost use Rattle.fm_io.specs.View.{Leaves};

use crate::count::raised;
use crate::fault::Fault;
use crate::files::{Files, Piece};
use crate::listed_files::read_listed;

/// Files in memory. No read of them fails.
#[derive(Drop)]
pub struct SureFiles {
    files: Vec<(String, Vec<u8>)>,
    misses: u64,
}

impl SureFiles {
    ghost use Rattle.fm_io.specs.InMemory.{sure_contents, sure_misses};

    /// Where a name is listed twice, the first counts. A piece is as long as the file goes on and as there is room for.
    pub fn new(files: Vec<(String, Vec<u8>)>) -> SureFiles
        ensures contents { sure_contents result ≡ contents_of files.items }
        ensures misses { sure_misses result ≡ 0 }
    {
        SureFiles { files, misses: 0 }
    }
}

impl Files for SureFiles {
    ghost use Rattle.fm_io.specs.InMemory.{sure_contents, sure_misses, sure_view};

    ghost view = { sure_view };

    fn read_at(&mut self, name: &str, at: u64, buf: &mut [u8]) -> Result<Piece, Fault>
        requires { 0 < length buf.old }
        ensures sure { IsOk result }
        ensures bytes { IfOk result (HasBytes (length buf.old)) }
        ensures content { IfOk result (TellsPiece (sure_contents self.old) name.now at buf.new) }
        ensures longest { IfOk result
            (TellsLongest (sure_contents self.old) name.now at (length buf.old)) }
        ensures missing { result ≡ Ok Piece.Missing → Raised (sure_misses self.old)
            (sure_misses self.new) }
        ensures left { Leaves (IsErrOf result Fault.Failed) (result ≡ Ok Piece.Missing)
            (sure_view self.old) (sure_view self.new) }
    {
        let piece = read_listed(&self.files, name, at, buf, usize::MAX);
        if piece == Piece::Missing {
            self.misses = raised(self.misses);
        }
        Ok(piece)
    }
}
