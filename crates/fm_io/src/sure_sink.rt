ghost use Rattle.std.specs.Prelude.{◌≡◌, ◌≢◌, ◌≤◌, ◌<◌, [], Some, Err, length, IfOk};
ghost use Rattle.fm_io.specs.Sink.{TookPiece};

use crate::fault::Fault;
use crate::sink::Sink;
use std::alloc::Global;

/// A sink in memory, which takes each piece whole. No write to it fails but for want of memory.
#[derive(Drop)]
pub struct SureSink {
    written: Vec<u8>,
}

impl SureSink {
    ghost use Rattle.fm_io.specs.InMemory.{sure_written};

    pub fn new(alloc: Global) -> SureSink
        ensures { sure_written result ≡ [] }
    {
        SureSink {
            written: Vec::new(alloc),
        }
    }

    /// All that was written.
    pub fn written(&self) -> &[u8]
        ensures { result.now ≡ sure_written self.now }
    {
        &self.written
    }
}

impl Sink for SureSink {
    ghost use Rattle.fm_io.specs.InMemory.{sure_written};

    ghost view = { λ s. record { written = Some (sure_written s); faults = 0 } };

    fn write(&mut self, piece: &[u8]) -> Result<usize, Fault>
        requires { 0 < length piece.now }
        ensures sure { result ≢ Err Fault.Failed }
        ensures bytes { IfOk result (λ n. (0 < n) × (n ≤ length piece.now)) }
        ensures whole { IfOk result (λ n. n ≡ length piece.now) }
        ensures took { TookPiece (Some (sure_written self.old)) (Some (sure_written self.new))
            piece.now result }
    {
        self.written.extend_from_slice(piece)?;
        Ok(piece.len())
    }
}
