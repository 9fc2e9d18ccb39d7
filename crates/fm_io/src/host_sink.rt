ghost use Rattle.std.specs.Prelude.{◌≡◌, ◌≢◌, ◌<◌, ◌≤◌, None, IfOk, IsErrOf, length, Err};
ghost use Rattle.std.specs.Io.KnownBytes.{WriteAppends};
ghost use Rattle.fm_io.specs.Count.{Counts, Raised};
ghost use Rattle.fm_io.specs.Sink.{TookPiece};

use crate::count::raised;
use crate::fault::Fault;
use crate::sink::Sink;
use std::io::Write;

/// A writer of the host, as the standard output. It tells nothing of what was written.
///
/// Each write is one call of the system. One that takes no byte is a fault.
#[derive(Drop)]
pub struct HostSink<W: Write> {
    writer: W,
    faults: u64,
}

impl<W: Write> HostSink<W> {
    /// No write has failed yet.
    pub fn new(writer: W) -> HostSink<W>
        ensures { result.faults ≡ 0 }
    {
        HostSink { writer, faults: 0 }
    }
}

impl<W: Write> Sink for HostSink<W> {
    ghost view = { λ s. record { written = None; faults = s.faults } };

    fn write(&mut self, piece: &[u8]) -> Result<usize, Fault>
        requires { 0 < length piece.now }
        ensures bytes { IfOk result (λ n. (0 < n) × (n ≤ length piece.now)) }
        ensures took { TookPiece None None piece.now result }
        ensures passed { WriteAppends (W.contents self.old.writer) (W.contents self.new.writer)
            result piece.now }
        ensures never_memory { result ≢ Err Fault.Memory }
        ensures counted { Counts Raised (IsErrOf result Fault.Failed) self.old.faults
            self.new.faults }
    {
        match self.writer.write(piece) {
            Ok(n) if n > 0 => Ok(n),
            _ => {
                self.faults = raised(self.faults);
                Err(Fault::Failed)
            }
        }
    }
}
