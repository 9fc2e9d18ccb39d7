ghost use Rattle.std.specs.Prelude.{◌+◌, ◌<◌, ◌^◌, length, IfOk, IsErrOf};
ghost use Rattle.fm_io.specs.Files.{IsAbsent, IsFilled};
ghost use Rattle.fm_io.specs.Reads.{GoesOn, ReadsFile};
ghost use Rattle.fm_io.specs.View.{Leaves};

use crate::fault::Fault;
use crate::files::{Files, Piece};

/// Why a file wasn't read.
#[derive(Clone, Copy, Debug, PartialEq, Eq)]
pub enum ReadFault {
    /// There is no file of that name.
    Missing,
    /// A read failed.
    Failed,
    /// Memory ran out.
    Memory,
}

/// Fills the buffer with the bytes of a file from the place `at` on, in as many reads as that takes.
///
/// Answers how many bytes came: fewer than the buffer has only where the file ended. What stands
/// behind them in the buffer is open, and so is all of it after an error.
pub fn fill<F: Files>(
    files: &mut F,
    name: &str,
    at: u64,
    buf: &mut [u8],
) -> Result<usize, ReadFault>
    requires room { 0 < length buf.old }
    requires place { at + length buf.old < 2 ^ 64 }
    ensures filled { IfOk result
        (IsFilled (F.view files.old).holds name.now at (length buf.old) buf.new) }
    ensures absent { IsErrOf result ReadFault.Missing → IsAbsent (F.view files.old).holds name.now }
    // It reads where the bytes of its last read end, up to the buffer's end, and not again after another answer.
    ensures reads { ReadsFile (F.view files.old).reads (F.view files.new).reads name.now (length buf.old)
        (at + length buf.old) at (λ next. IfOk result (λ n. GoesOn at (length buf.old) n next)) }
    ensures left { Leaves (IsErrOf result ReadFault.Failed) (IsErrOf result ReadFault.Missing)
        (F.view files.old) (F.view files.new) }
{
    let mut n = 0;
    while n < buf.len() {
        match files.read_at(name, at + n as u64, &mut buf[n..]) {
            Ok(Piece::Got(more)) => n += more,
            Ok(Piece::End) => return Ok(n),
            Ok(Piece::Missing) => return Err(ReadFault::Missing),
            Err(Fault::Failed) => return Err(ReadFault::Failed),
            Err(Fault::Memory) => return Err(ReadFault::Memory),
        }
    }
    Ok(n)
}
