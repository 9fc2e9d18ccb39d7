ghost use Rattle.std.specs.Prelude.{◌≡◌};
ghost use Rattle.fm_segment.specs.Learnt.{CanUse, AfterPutBytes};
ghost use Rattle.fm_segment.specs.Puts.{checked_put};

use super::Segment;
use fm_base::{Memory, Refusal};
use fm_segment_access::put_bytes;
use std::sync::Wait;

impl Segment {
    /// Puts `bytes` from an offset on (`MemorySegment.copy` from an array). Other bytes stay.
    ///
    /// Refused, in this order: `ReadOnly`, `Bounds` where the bytes pass the end, `WrongThread`, `Closed`. No bytes enter
    /// no arena and are refused as `Bounds` alone. The lowest place comes first: all whole words are put in one visit, what
    /// lies before and behind them piece by piece. Where the arena is closed in between, what was put before stays put.
    pub fn put_bytes<R: Wait, M: Memory>(
        &self,
        rt: &R,
        m: &mut M,
        offset: u64,
        bytes: &[u8],
    ) -> Result<(), Refusal>
        requires { CanUse (M.view m.old) self.now }
        ensures { AfterPutBytes (M.view m.old) (M.view m.new) self.now offset bytes.now result }
    {
        let n = bytes.len() as u64;
        self.check_put(offset, n)?;
        let to = self.part(offset, n);
        put_bytes(rt, m, to.arena(), to.first(), bytes)
    }

    /// What refuses a put before the arena is entered, in this order: `ReadOnly`, `Bounds`.
    pub fn check_put(&self, offset: u64, n: u64) -> Result<(), Refusal>
        ensures { result ≡ checked_put self.now offset n }
    {
        self.check_write(n)?;
        if !self.has(offset, n) {
            return Err(Refusal::Bounds);
        }
        Ok(())
    }
}
