ghost use Rattle.fm_handle.specs.Learnt.{CanPut, CanExchange, AfterCompareAndSet, AfterExchange, AfterAdd};

use super::VarHandle;
use super::place::Support;
use crate::visits::{add_value, exchange_value};
use crate::word::is_same;
use fm_base::{Memory, Refusal};
use fm_lanes::Value;
use fm_segment::Segment;
use std::sync::Wait;

impl VarHandle {
    /// Puts `v` where the value is `expected`, and answers whether it was (`VarHandle.compareAndSet`). The value
    /// counts and not its word: what others write beside it doesn't matter.
    ///
    /// Refused, in this order: `Unsupported` where the value is no int or long or its alignment is below its size,
    /// `IndexOut`, `ReadOnly`, `Bounds`, `Misaligned`, `WrongThread`, `Closed`. A refused call changes nothing.
    pub fn compare_and_set<R: Wait, M: Memory>(
        &self,
        rt: &R,
        m: &mut M,
        s: &Segment,
        base: u64,
        indices: &[u64],
        expected: Value,
        v: Value,
    ) -> Result<bool, Refusal>
        requires { CanExchange (M.view m.old) self.now s.now indices.now expected v }
        ensures { AfterCompareAndSet (M.view m.old) (M.view m.new) self.now s.now base indices.now expected v result }
    {
        let found = self.compare_and_exchange(rt, m, s, base, indices, expected, v)?;
        Ok(is_same(found, expected))
    }

    /// Puts `v` where the value is `expected`, and answers the value found (`VarHandle.compareAndExchange`).
    ///
    /// Refused as `compare_and_set` is. A refused call changes nothing.
    pub fn compare_and_exchange<R: Wait, M: Memory>(
        &self,
        rt: &R,
        m: &mut M,
        s: &Segment,
        base: u64,
        indices: &[u64],
        expected: Value,
        v: Value,
    ) -> Result<Value, Refusal>
        requires { CanExchange (M.view m.old) self.now s.now indices.now expected v }
        ensures { AfterExchange (M.view m.old) (M.view m.new) self.now s.now base indices.now expected v result }
    {
        let place = self.update_place_of(Support::Number, s, base, indices)?;
        let order = self.resolved.value().order;
        exchange_value(rt, m, s.arena(), place, order, expected, v)
    }

    /// Adds `delta` to the value, wrapping in its width, and answers the value found (`VarHandle.getAndAdd`). Nothing
    /// is carried into the bytes beside it.
    ///
    /// Refused as `compare_and_set` is. A refused call changes nothing.
    pub fn get_and_add<R: Wait, M: Memory>(
        &self,
        rt: &R,
        m: &mut M,
        s: &Segment,
        base: u64,
        indices: &[u64],
        delta: Value,
    ) -> Result<Value, Refusal>
        requires { CanPut (M.view m.old) self.now s.now indices.now delta }
        ensures { AfterAdd (M.view m.old) (M.view m.new) self.now s.now base indices.now delta result }
    {
        let place = self.update_place_of(Support::Number, s, base, indices)?;
        let order = self.resolved.value().order;
        add_value(rt, m, s.arena(), place, order, delta)
    }
}
