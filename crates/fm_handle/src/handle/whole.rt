ghost use Rattle.fm_handle.specs.Learnt.{CanCall, AfterSetLong, AfterExchangeLong, AfterAddLong};

use super::VarHandle;
use super::place::Support;
use crate::visits::{add_long, exchange_long, store_long};
use fm_base::{Memory, Refusal};
use fm_segment::Segment;

impl VarHandle {
    /// Puts a long that fills a word, at once (`VarHandle.setVolatile`). It waits for nobody.
    ///
    /// Refused, in this order: `Unsupported` where the value is no long or its alignment is below 8, `IndexOut`,
    /// `ReadOnly`, `Bounds`, `Misaligned`, `WrongThread`, `Closed`. A refused call changes nothing.
    pub fn set_long<M: Memory>(
        &self,
        m: &mut M,
        s: &Segment,
        base: u64,
        indices: &[u64],
        v: i64,
    ) -> Result<(), Refusal>
        requires { CanCall (M.view m.old) self.now s.now indices.now }
        ensures { AfterSetLong (M.view m.old) (M.view m.new) self.now s.now base indices.now v result }
    {
        let place = self.update_place_of(Support::Long, s, base, indices)?;
        store_long(m, s.arena(), place, self.resolved.value().order, v)
    }

    /// Puts `v` where the long is `expected`, in one exchange of whole words, and answers the long found
    /// (`VarHandle.compareAndExchange`). It waits for nobody.
    ///
    /// Refused as `set_long` is. A refused call changes nothing.
    pub fn compare_and_exchange_long<M: Memory>(
        &self,
        m: &mut M,
        s: &Segment,
        base: u64,
        indices: &[u64],
        expected: i64,
        v: i64,
    ) -> Result<i64, Refusal>
        requires { CanCall (M.view m.old) self.now s.now indices.now }
        ensures { AfterExchangeLong (M.view m.old) (M.view m.new) self.now s.now base indices.now expected v result }
    {
        let place = self.update_place_of(Support::Long, s, base, indices)?;
        let order = self.resolved.value().order;
        exchange_long(m, s.arena(), place, order, expected, v)
    }

    /// Adds `delta` to the long, wrapping, in one step, and answers the long found (`VarHandle.getAndAdd`). It waits
    /// for nobody.
    ///
    /// Refused as `set_long` is, with `Unsupported` also where the highest byte comes first. A refused call changes
    /// nothing.
    pub fn get_and_add_long<M: Memory>(
        &self,
        m: &mut M,
        s: &Segment,
        base: u64,
        indices: &[u64],
        delta: i64,
    ) -> Result<i64, Refusal>
        requires { CanCall (M.view m.old) self.now s.now indices.now }
        ensures { AfterAddLong (M.view m.old) (M.view m.new) self.now s.now base indices.now delta result }
    {
        let place = self.update_place_of(Support::Word, s, base, indices)?;
        add_long(m, s.arena(), place, delta)
    }
}
