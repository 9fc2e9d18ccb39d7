ghost use Rattle.std.specs.Prelude.{◌≡◌, ◌+◌, length, IfOk, IfErr};
ghost use Rattle.fm_lanes.specs.Value.{kind_of};
ghost use Rattle.fm_layout.specs.Parts.{IsValue};
ghost use Rattle.fm_segment.specs.Access.{HasKind, IsKnown};
ghost use Rattle.fm_segment.specs.Alone.{CopiesBytes, FillsBytes, FindsMismatch, FindsValue, PutsValue};
ghost use Rattle.fm_segment_access.specs.Alone.{ChangesBytes};
ghost use Rattle.fm_visit.specs.Learnt.{IsIn};
ghost use Rattle.fm_visit.specs.Values.{DoesCopy, DoesFill, DoesGet, DoesGetBytes, DoesMismatch, DoesPutBytes, DoesSet, FindsBytes};
ghost use Rattle.fm_visit.specs.Visiting.{AfterVisit, AfterVisitBoth};

use super::Visit;
use crate::bytes::{get_bytes, put_bytes};
use crate::range::fill;
use crate::sides::{copy, mismatch};
use crate::value::{get, set};
use fm_base::{Memory, Refusal};
use fm_lanes::Value;
use fm_layout::Layout;
use fm_segment::Segment;
use std::sync::Wait;

impl Visit {
    /// As `get`.
    #[inline(always)]
    pub fn get<M: Memory>(
        &self,
        m: &mut M,
        s: &Segment,
        layout: &Layout,
        offset: u64,
    ) -> Result<Value, Refusal>
        requires inside { IsIn (M.view m.old) self.now.arena s.now }
        requires value { IsValue layout.now }
        ensures got { AfterVisit (M.view m.old) (M.view m.new) self.now.arena s.now
            (DoesGet s.now layout.now offset) (FindsValue (M.view m.old) (M.view m.new) s.now layout.now offset) result }
        ensures kind { IfOk result (λ v. HasKind layout.now (kind_of v)) }
    {
        if self.is_elsewhere(s) {
            return Err(Refusal::Unsupported);
        }
        get(m, s, layout, offset)
    }

    /// As `set`.
    pub fn set<R: Wait, M: Memory>(
        &self,
        rt: &R,
        m: &mut M,
        s: &Segment,
        layout: &Layout,
        offset: u64,
        v: Value,
    ) -> Result<(), Refusal>
        requires inside { IsIn (M.view m.old) self.now.arena s.now }
        requires value { HasKind layout.now (kind_of v) }
        ensures { AfterVisit (M.view m.old) (M.view m.new) self.now.arena s.now
            (DoesSet s.now layout.now offset v) (λ u. PutsValue (M.view m.old) (M.view m.new) s.now layout.now offset v) result }
    {
        if self.is_elsewhere(s) {
            return Err(Refusal::Unsupported);
        }
        set(rt, m, s, layout, offset, v)
    }

    /// As `get_bytes`.
    pub fn get_bytes<M: Memory>(
        &self,
        m: &mut M,
        s: &Segment,
        offset: u64,
        into: &mut [u8],
    ) -> Result<(), Refusal>
        requires { IsIn (M.view m.old) self.now.arena s.now }
        ensures got { AfterVisit (M.view m.old) (M.view m.new) self.now.arena s.now (DoesGetBytes s.now offset into.new)
            (λ u. FindsBytes s.now (M.view m.old) (M.view m.new) offset into.new) result }
        ensures same { IfErr result (λ _. into.new ≡ into.old) }
        ensures size { length into.new ≡ length into.old }
    {
        if self.is_elsewhere(s) {
            return Err(Refusal::Unsupported);
        }
        get_bytes(m, s, offset, into)
    }

    /// As `put_bytes`.
    pub fn put_bytes<R: Wait, M: Memory>(
        &self,
        rt: &R,
        m: &mut M,
        s: &Segment,
        offset: u64,
        bytes: &[u8],
    ) -> Result<(), Refusal>
        requires { IsIn (M.view m.old) self.now.arena s.now }
        ensures { AfterVisit (M.view m.old) (M.view m.new) self.now.arena s.now (DoesPutBytes s.now offset bytes.now)
            (λ u. ChangesBytes (M.view m.old) (M.view m.new) s.now.arena (s.now.first + offset) bytes.now) result }
    {
        if self.is_elsewhere(s) {
            return Err(Refusal::Unsupported);
        }
        put_bytes(rt, m, s, offset, bytes)
    }

    /// As `fill`.
    pub fn fill<R: Wait, M: Memory>(
        &self,
        rt: &R,
        m: &mut M,
        s: &Segment,
        byte: u8,
    ) -> Result<(), Refusal>
        requires { IsIn (M.view m.old) self.now.arena s.now }
        ensures { AfterVisit (M.view m.old) (M.view m.new) self.now.arena s.now (DoesFill s.now byte)
            (λ u. FillsBytes (M.view m.old) (M.view m.new) s.now byte) result }
    {
        if self.is_elsewhere(s) {
            return Err(Refusal::Unsupported);
        }
        fill(rt, m, s, byte)
    }

    /// As `copy`. Refused before all else: `Unsupported`, where either segment is of another arena.
    pub fn copy<R: Wait, M: Memory>(
        &self,
        rt: &R,
        m: &mut M,
        src: &Segment,
        src_at: u64,
        dst: &Segment,
        dst_at: u64,
        n: u64,
    ) -> Result<(), Refusal>
        requires source { IsIn (M.view m.old) self.now.arena src.now }
        requires target { IsKnown (M.view m.old) dst.now }
        ensures copied { AfterVisitBoth (M.view m.old) (M.view m.new) self.now.arena src.now dst.now
            (DoesCopy src.now src_at dst.now dst_at n) (λ u. CopiesBytes (M.view m.old) (M.view m.new) src.now src_at dst.now dst_at n) result }
        ensures known { IsKnown (M.view m.new) dst.now }
    {
        if self.are_elsewhere(src, dst) {
            return Err(Refusal::Unsupported);
        }
        copy(rt, m, src, src_at, dst, dst_at, n)
    }

    /// As `mismatch`. Refused: `Unsupported`, where either segment is of another arena.
    pub fn mismatch<M: Memory>(&self, m: &mut M, a: &Segment, b: &Segment) -> Result<i64, Refusal>
        requires first { IsIn (M.view m.old) self.now.arena a.now }
        requires second { IsKnown (M.view m.old) b.now }
        ensures found { AfterVisitBoth (M.view m.old) (M.view m.new) self.now.arena a.now b.now
            (DoesMismatch a.now b.now) (FindsMismatch (M.view m.old) (M.view m.new) a.now b.now) result }
        ensures known { IsKnown (M.view m.new) b.now }
    {
        if self.are_elsewhere(a, b) {
            return Err(Refusal::Unsupported);
        }
        Ok(mismatch(m, a, b))
    }
}
