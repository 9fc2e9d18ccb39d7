ghost use Rattle.std.specs.Prelude.{◌≡◌, IfOk};
ghost use Rattle.fm_lanes.specs.Value.{kind_of};
ghost use Rattle.fm_visit.specs.Handles.{CanCall, CanExchange, CanPut};
ghost use Rattle.fm_visit.specs.Visiting.{AfterVisitAdd, AfterVisitAddLong, AfterVisitCompareAndSet, AfterVisitExchange, AfterVisitExchangeLong};
ghost use Rattle.fm_visit.specs.Visiting.{AfterVisitGetBy, AfterVisitSetBy, AfterVisitSetLong};

use super::Visit;
use crate::handle::{compare_and_exchange, compare_and_set, get_and_add, get_by, set_by};
use crate::whole::{compare_and_exchange_long, get_and_add_long, set_long};
use fm_base::{Memory, Refusal};
use fm_handle::VarHandle;
use fm_lanes::Value;
use fm_segment::Segment;
use std::sync::Wait;

impl Visit {
    /// As `get_by`.
    #[inline(always)]
    pub fn get_by<M: Memory>(
        &self,
        m: &mut M,
        handle: &VarHandle,
        s: &Segment,
        base: u64,
        indices: &[u64],
    ) -> Result<Value, Refusal>
        requires { CanCall (M.view m.old) self.now.arena handle.now s.now indices.now }
        ensures got { AfterVisitGetBy (M.view m.old) (M.view m.new)
            self.now.arena handle.now s.now base indices.now result }
        ensures kind { IfOk result (λ v. kind_of v ≡ handle.now.value.kind) }
    {
        if self.is_elsewhere(s) {
            return Err(Refusal::Unsupported);
        }
        get_by(m, handle, s, base, indices)
    }

    /// As `set_by`.
    pub fn set_by<R: Wait, M: Memory>(
        &self,
        rt: &R,
        m: &mut M,
        handle: &VarHandle,
        s: &Segment,
        base: u64,
        indices: &[u64],
        v: Value,
    ) -> Result<(), Refusal>
        requires { CanPut (M.view m.old) self.now.arena handle.now s.now indices.now v }
        ensures { AfterVisitSetBy (M.view m.old) (M.view m.new)
            self.now.arena handle.now s.now base indices.now v result }
    {
        if self.is_elsewhere(s) {
            return Err(Refusal::Unsupported);
        }
        set_by(rt, m, handle, s, base, indices, v)
    }

    /// As `compare_and_set`.
    pub fn compare_and_set<R: Wait, M: Memory>(
        &self,
        rt: &R,
        m: &mut M,
        handle: &VarHandle,
        s: &Segment,
        base: u64,
        indices: &[u64],
        expected: Value,
        v: Value,
    ) -> Result<bool, Refusal>
        requires { CanExchange (M.view m.old) self.now.arena handle.now s.now indices.now expected v }
        ensures { AfterVisitCompareAndSet (M.view m.old) (M.view m.new)
            self.now.arena handle.now s.now base indices.now expected v result }
    {
        if self.is_elsewhere(s) {
            return Err(Refusal::Unsupported);
        }
        compare_and_set(rt, m, handle, s, base, indices, expected, v)
    }

    /// As `compare_and_exchange`.
    pub fn compare_and_exchange<R: Wait, M: Memory>(
        &self,
        rt: &R,
        m: &mut M,
        handle: &VarHandle,
        s: &Segment,
        base: u64,
        indices: &[u64],
        expected: Value,
        v: Value,
    ) -> Result<Value, Refusal>
        requires { CanExchange (M.view m.old) self.now.arena handle.now s.now indices.now expected v }
        ensures exchanged { AfterVisitExchange (M.view m.old) (M.view m.new)
            self.now.arena handle.now s.now base indices.now expected v result }
        ensures kind { IfOk result (λ v. kind_of v ≡ handle.now.value.kind) }
    {
        if self.is_elsewhere(s) {
            return Err(Refusal::Unsupported);
        }
        compare_and_exchange(rt, m, handle, s, base, indices, expected, v)
    }

    /// As `get_and_add`.
    pub fn get_and_add<R: Wait, M: Memory>(
        &self,
        rt: &R,
        m: &mut M,
        handle: &VarHandle,
        s: &Segment,
        base: u64,
        indices: &[u64],
        delta: Value,
    ) -> Result<Value, Refusal>
        requires { CanPut (M.view m.old) self.now.arena handle.now s.now indices.now delta }
        ensures added { AfterVisitAdd (M.view m.old) (M.view m.new)
            self.now.arena handle.now s.now base indices.now delta result }
        ensures kind { IfOk result (λ v. kind_of v ≡ handle.now.value.kind) }
    {
        if self.is_elsewhere(s) {
            return Err(Refusal::Unsupported);
        }
        get_and_add(rt, m, handle, s, base, indices, delta)
    }

    /// As `set_long`.
    pub fn set_long<M: Memory>(
        &self,
        m: &mut M,
        handle: &VarHandle,
        s: &Segment,
        base: u64,
        indices: &[u64],
        v: i64,
    ) -> Result<(), Refusal>
        requires { CanCall (M.view m.old) self.now.arena handle.now s.now indices.now }
        ensures { AfterVisitSetLong (M.view m.old) (M.view m.new)
            self.now.arena handle.now s.now base indices.now v result }
    {
        if self.is_elsewhere(s) {
            return Err(Refusal::Unsupported);
        }
        set_long(m, handle, s, base, indices, v)
    }

    /// As `compare_and_exchange_long`.
    pub fn compare_and_exchange_long<M: Memory>(
        &self,
        m: &mut M,
        handle: &VarHandle,
        s: &Segment,
        base: u64,
        indices: &[u64],
        expected: i64,
        v: i64,
    ) -> Result<i64, Refusal>
        requires { CanCall (M.view m.old) self.now.arena handle.now s.now indices.now }
        ensures { AfterVisitExchangeLong (M.view m.old) (M.view m.new)
            self.now.arena handle.now s.now base indices.now expected v result }
    {
        if self.is_elsewhere(s) {
            return Err(Refusal::Unsupported);
        }
        compare_and_exchange_long(m, handle, s, base, indices, expected, v)
    }

    /// As `get_and_add_long`.
    pub fn get_and_add_long<M: Memory>(
        &self,
        m: &mut M,
        handle: &VarHandle,
        s: &Segment,
        base: u64,
        indices: &[u64],
        delta: i64,
    ) -> Result<i64, Refusal>
        requires { CanCall (M.view m.old) self.now.arena handle.now s.now indices.now }
        ensures { AfterVisitAddLong (M.view m.old) (M.view m.new)
            self.now.arena handle.now s.now base indices.now delta result }
    {
        if self.is_elsewhere(s) {
            return Err(Refusal::Unsupported);
        }
        get_and_add_long(m, handle, s, base, indices, delta)
    }
}
