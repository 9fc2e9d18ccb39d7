ghost use Rattle.std.specs.Prelude.{◌≡◌, ◌<◌, length, IfOk, IsErrOf, Ok};
ghost use Rattle.fm_io.specs.Files.{contents_of, HasBytes, TellsPiece};
ghost use Rattle.fm_io.specs.View.{Leaves};

use crate::count::raised;
use crate::failing::Failing;
use crate::fault::Fault;
use crate::files::{Files, Piece};
use crate::listed_files::read_listed;

/// Files in memory, some of whose reads fail.
#[derive(Drop)]
pub struct MemFiles {
    files: Vec<(String, Vec<u8>)>,
    reads: Failing,
    misses: u64,
    most: usize,
    ghost some: { 0 < most },
}

impl MemFiles {
    ghost use Rattle.fm_io.specs.Failing.{listed_calls, calls_made, calls_failed};
    ghost use Rattle.fm_io.specs.InMemory.{mem_contents, mem_misses, mem_reads, read_limit};

    /// The reads whose numbers, from 0, are in `failing` fail. Where a name is listed twice, the first counts. A piece is
    /// as long as the file goes on and as there is room for.
    pub fn new(files: Vec<(String, Vec<u8>)>, failing: Vec<u64>) -> MemFiles
        ensures contents { mem_contents result ≡ contents_of files.items }
        ensures listed { listed_calls (mem_reads result) ≡ failing.items }
        ensures made { calls_made (mem_reads result) ≡ 0 }
        ensures failed { calls_failed (mem_reads result) ≡ 0 }
        ensures misses { mem_misses result ≡ 0 }
        ensures limit { read_limit result ≡ usize.MAX }
    {
        MemFiles {
            files,
            reads: Failing::new(failing),
            misses: 0,
            most: usize::MAX,
        }
    }

    /// The same files, each piece cut to `n` bytes where it would be longer.
    pub fn with_piece(mut self, n: usize) -> MemFiles
        requires { 0 < n }
        ensures contents { mem_contents result ≡ mem_contents self }
        ensures reads { mem_reads result ≡ mem_reads self }
        ensures misses { mem_misses result ≡ mem_misses self }
        ensures limit { read_limit result ≡ n }
    {
        self.most = n;
        self
    }
}

impl Files for MemFiles {
    ghost use Rattle.fm_io.specs.InMemory.{ReadsAsListed, mem_contents, mem_view};

    ghost view = { mem_view };

    fn read_at(&mut self, name: &str, at: u64, buf: &mut [u8]) -> Result<Piece, Fault>
        requires { 0 < length buf.old }
        ensures listed { ReadsAsListed self.old self.new name.now at (length buf.old) result }
        ensures bytes { IfOk result (HasBytes (length buf.old)) }
        ensures content { IfOk result (TellsPiece (mem_contents self.old) name.now at buf.new) }
        ensures left { Leaves (IsErrOf result Fault.Failed) (result ≡ Ok Piece.Missing)
            (mem_view self.old) (mem_view self.new) }
    {
        if self.reads.counts_call() {
            return Err(Fault::Failed);
        }
        let piece = read_listed(&self.files, name, at, buf, self.most);
        if piece == Piece::Missing {
            self.misses = raised(self.misses);
        }
        Ok(piece)
    }
}
