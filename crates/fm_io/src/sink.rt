ghost use Rattle.std.specs.Prelude.{◌<◌, ◌≤◌, length, IfOk, IsErrOf};
ghost use Rattle.fm_io.specs.Count.{Counts, Raised};
ghost use Rattle.fm_io.specs.Sink.{SinkView, TookPiece};

use crate::fault::Fault;

/// Where bytes are written, one after another.
///
/// An implementation may tell what was written. It counts the writes that failed, each once;
/// the count stands still at the greatest `u64`. Code that is generic over the trait can't raise it by itself.
pub trait Sink {
    /// What was written, where it is told, and how many writes failed.
    ghost view: { Self → SinkView };

    /// Writes some first bytes of the piece, at least one, and answers how many. After an error none was written.
    fn write(&mut self, piece: &[u8]) -> Result<usize, Fault>
        requires { 0 < length piece.now }
        ensures bytes { IfOk result (λ n. (0 < n) × (n ≤ length piece.now)) }
        ensures took { TookPiece (view self.old).written (view self.new).written piece.now result }
        ensures counted { Counts Raised (IsErrOf result Fault.Failed) (view self.old).faults
            (view self.new).faults };
}
