ghost use Rattle.std.specs.Prelude.{◌≡◌, ◌≤◌, ◌<◌, [], Some, length, min, IfOk};
ghost use Rattle.fm_io.specs.Sink.{TookPiece};

use crate::failing::Failing;
use crate::fault::Fault;
use crate::sink::Sink;
use std::alloc::Global;

/// A sink in memory, some of whose writes fail.
#[derive(Drop)]
pub struct MemSink {
    written: Vec<u8>,
    writes: Failing,
    most: usize,
    ghost some: { 0 < most },
}

impl MemSink {
    ghost use Rattle.fm_io.specs.Failing.{listed_calls, calls_made, calls_failed};
    ghost use Rattle.fm_io.specs.InMemory.{mem_written, mem_writes};

    /// The writes whose numbers, from 0, are in `failing` fail. Each other write takes its whole piece.
    pub fn new(alloc: Global, failing: Vec<u64>) -> MemSink
        ensures written { mem_written result ≡ [] }
        ensures listed { listed_calls (mem_writes result) ≡ failing.items }
        ensures made { calls_made (mem_writes result) ≡ 0 }
        ensures failed { calls_failed (mem_writes result) ≡ 0 }
        ensures limit { result.most ≡ usize.MAX }
    {
        MemSink {
            written: Vec::new(alloc),
            writes: Failing::new(failing),
            most: usize::MAX,
        }
    }

    /// The same sink, each write of the whole piece or, where that is longer, of its first `n` bytes.
    pub fn with_piece(mut self, n: usize) -> MemSink
        requires { 0 < n }
        ensures written { mem_written result ≡ mem_written self }
        ensures writes { mem_writes result ≡ mem_writes self }
        ensures limit { result.most ≡ n }
    {
        self.most = n;
        self
    }

    /// All that was written.
    pub fn written(&self) -> &[u8]
        ensures { result.now ≡ mem_written self.now }
    {
        &self.written
    }
}

impl Sink for MemSink {
    ghost use Rattle.fm_io.specs.Failing.{calls_failed};
    ghost use Rattle.fm_io.specs.InMemory.{FailsAsListed, mem_written, mem_writes};

    ghost view = { λ s. record { written = Some (mem_written s); faults = calls_failed (mem_writes s) } };

    fn write(&mut self, piece: &[u8]) -> Result<usize, Fault>
        requires { 0 < length piece.now }

        // It fails exactly where the call is one of those listed.
        ensures fails { FailsAsListed (mem_writes self.old) (mem_writes self.new) result }
        ensures bytes { IfOk result (λ n. (0 < n) × (n ≤ length piece.now)) }
        ensures most { IfOk result (λ n. n ≡ min (length piece.now) self.old.most) }
        ensures took { TookPiece (Some (mem_written self.old)) (Some (mem_written self.new))
            piece.now result }
        ensures limit { self.new.most ≡ self.old.most }
    {
        if self.writes.counts_call() {
            return Err(Fault::Failed);
        }
        let n = piece.len().min(self.most);
        self.written.extend_from_slice(&piece[..n])?;
        Ok(n)
    }
}
