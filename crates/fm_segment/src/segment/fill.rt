ghost use Rattle.std.specs.Prelude.{◌≡◌};
ghost use Rattle.fm_segment.specs.Fills.{checked_write};
ghost use Rattle.fm_segment.specs.Learnt.{CanUse, AfterFill};

use super::Segment;
use fm_base::{Memory, Refusal};
use fm_segment_access::fill;
use std::sync::Wait;

impl Segment {
    /// Puts `byte` at each of its places.
    ///
    /// Refused, in this order: `ReadOnly`, `WrongThread`, `Closed`; a segment of 0 bytes isn't refused, and no arena is
    /// entered. The lowest piece comes first, each in a visit of its own; where the arena is closed in between, the
    /// pieces before stay put.
    pub fn fill<R: Wait, M: Memory>(&self, rt: &R, m: &mut M, byte: u8) -> Result<(), Refusal>
        requires { CanUse (M.view m.old) self.now }
        ensures { AfterFill (M.view m.old) (M.view m.new) self.now byte result }
    {
        self.check_write(self.size())?;
        fill(rt, m, self.arena(), self.first(), self.size(), byte)
    }

    /// Refused: `ReadOnly` where so many bytes can't be written, of which there is one.
    pub fn check_write(&self, n: u64) -> Result<(), Refusal>
        ensures { result ≡ checked_write n self.now }
    {
        if n > 0 && self.read_only {
            return Err(Refusal::ReadOnly);
        }
        Ok(())
    }
}
