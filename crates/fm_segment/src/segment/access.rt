ghost use Rattle.std.specs.Prelude.{◌≡◌, ◌+◌, ◌≤◌, ◌^◌, IfOk};
ghost use Rattle.fm_layout.specs.Parts.{IsValue, form_of};
ghost use Rattle.fm_layout.specs.Size.{size_of};
ghost use Rattle.fm_segment.specs.Access.{StandsAtIndex, offset_of_index, place_of, writable_place_of};
ghost use Rattle.fm_segment.specs.Learnt.{CanGet, CanSet, AfterGet, AfterSet, AfterGetIndex, AfterSetIndex};

use super::Segment;
use crate::alignment::is_aligned;
use fm_base::{Memory, Refusal};
use fm_lanes::{Order, Value, ValueKind};
use fm_layout::{Form, Layout};
use fm_segment_access::{get_value, put_value};
use std::sync::Wait;

impl Segment {
    /// Reads the value of `layout` that stands `offset` bytes from the segment's start.
    ///
    /// Refused, in this order: `Bounds`, `Misaligned`, `WrongThread`, `Closed`. A refused read changes nothing.
    /// A value that crosses a word is read piece by piece, each in a visit of its own; others may write between.
    #[inline(always)]
    pub fn get<M: Memory>(&self, m: &mut M, layout: &Layout, offset: u64) -> Result<Value, Refusal>
        requires { CanGet (M.view m.old) self.now layout.now }
        ensures { AfterGet (M.view m.old) (M.view m.new) self.now layout.now offset result }
    {
        let place = self.place_of(layout, offset)?;
        let (kind, order) = coding_of(layout);
        get_value(m, self.arena, place, kind, order)
    }

    /// Puts `v` as the value of `layout`, `offset` bytes from the segment's start. Other bytes stay.
    ///
    /// Refused, in this order: `ReadOnly`, `Bounds`, `Misaligned`, `WrongThread`, `Closed`. A refused write changes
    /// nothing, but for a value that crosses a word: it is put piece by piece, the lowest place first, each in a visit
    /// of its own, and where the arena is closed in between, the first piece stays put.
    pub fn set<R: Wait, M: Memory>(
        &self,
        rt: &R,
        m: &mut M,
        layout: &Layout,
        offset: u64,
        v: Value,
    ) -> Result<(), Refusal>
        requires { CanSet (M.view m.old) self.now layout.now v }
        ensures { AfterSet (M.view m.old) (M.view m.new) self.now layout.now offset v result }
    {
        let place = self.writable_place_of(layout, offset)?;
        let (_, order) = coding_of(layout);
        put_value(rt, m, self.arena, place, order, v)
    }

    /// Reads the value of `layout` at the index `index`, where values stand side by side from the segment's start on.
    ///
    /// Refused, in this order: `Unsupported` where the layout's alignment is over its size, whatever the index, then
    /// `Bounds`, `Misaligned`, `WrongThread`, `Closed`, as `get` is.
    pub fn get_at_index<M: Memory>(
        &self,
        m: &mut M,
        layout: &Layout,
        index: u64,
    ) -> Result<Value, Refusal>
        requires { CanGet (M.view m.old) self.now layout.now }
        ensures { AfterGetIndex (M.view m.old) (M.view m.new) self.now layout.now index result }
    {
        let offset = self.offset_of_index(layout, index)?;
        self.get(m, layout, offset)
    }

    /// Puts `v` as the value of `layout` at the index `index`, where values stand side by side from the segment's start
    /// on. Other bytes stay.
    ///
    /// Refused, in this order: `Unsupported` where the layout's alignment is over its size, whatever the index, then
    /// `ReadOnly`, `Bounds`, `Misaligned`, `WrongThread`, `Closed`, as `set` is.
    pub fn set_at_index<R: Wait, M: Memory>(
        &self,
        rt: &R,
        m: &mut M,
        layout: &Layout,
        index: u64,
        v: Value,
    ) -> Result<(), Refusal>
        requires { CanSet (M.view m.old) self.now layout.now v }
        ensures { AfterSetIndex (M.view m.old) (M.view m.new) self.now layout.now index v result }
    {
        let offset = self.offset_of_index(layout, index)?;
        self.set(rt, m, layout, offset, v)
    }

    /// The offset of the element of this index in bytes, or one past the end where the element begins past the end.
    ///
    /// Refused: `Unsupported` where elements can't stand side by side, as the layout's alignment is over its size.
    fn offset_of_index(&self, layout: &Layout, index: u64) -> Result<u64, Refusal>
        ensures offset { result ≡ offset_of_index index layout.now self.now }
        ensures stands { StandsAtIndex index layout.now self.now result }
    {
        let size = layout.size();
        if layout.alignment() > size {
            return Err(Refusal::Unsupported);
        }
        Ok(index.saturating_mul(size).min(self.size + 1))
    }

    /// The place in the arena of a layout at an offset. Refused, in this order: `Bounds`, `Misaligned`.
    #[inline(always)]
    pub fn place_of(&self, layout: &Layout, offset: u64) -> Result<u64, Refusal>
        ensures place { result ≡ place_of offset layout.now self.now }
        ensures small { IfOk result (λ p. p + size_of layout.now ≤ 2 ^ 40) }
    {
        let slice = self.as_slice(offset, layout.size())?;
        if !is_aligned(slice.first, layout.alignment()) {
            return Err(Refusal::Misaligned);
        }
        Ok(slice.first)
    }

    /// The same for a write. Refused, in this order: `ReadOnly`, `Bounds`, `Misaligned`.
    pub fn writable_place_of(&self, layout: &Layout, offset: u64) -> Result<u64, Refusal>
        ensures place { result ≡ writable_place_of offset layout.now self.now }
        ensures small { IfOk result (λ p. p + size_of layout.now ≤ 2 ^ 40) }
    {
        if self.read_only {
            return Err(Refusal::ReadOnly);
        }
        self.place_of(layout, offset)
    }
}

/// What a value layout's bytes mean.
#[inline(always)]
pub fn coding_of(layout: &Layout) -> (ValueKind, Order)
    requires { IsValue layout.now }
    ensures { form_of layout.now ≡ Form.Value result.0 result.1 }
{
    match layout.form() {
        Form::Value(kind, order) => (kind, order),
        _ => unreachable!(),
    }
}
