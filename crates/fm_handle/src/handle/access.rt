ghost use Rattle.fm_handle.specs.Learnt.{CanCall, CanPut, AfterGet, AfterSet};

use super::VarHandle;
use fm_base::{Memory, Refusal};
use fm_lanes::{Order, Value, ValueKind};
use fm_segment::Segment;
use fm_segment_access::{get_value, put_value};
use std::sync::Wait;

impl VarHandle {
    /// Reads the value at these indices of the layout at the base (`VarHandle.get`).
    ///
    /// Refused, in this order: `IndexOut`, `Bounds`, `Misaligned`, `WrongThread`, `Closed`. A refused read changes
    /// nothing. A value that crosses a word is read piece by piece, each in a visit of its own; others may write between.
    pub fn get<M: Memory>(
        &self,
        m: &mut M,
        s: &Segment,
        base: u64,
        indices: &[u64],
    ) -> Result<Value, Refusal>
        requires { CanCall (M.view m.old) self.now s.now indices.now }
        ensures { AfterGet (M.view m.old) (M.view m.new) self.now s.now base indices.now result }
    {
        let place = self.place_of(s, base, indices)?;
        let value = self.resolved.value();
        // A long with its lowest byte first has a branch of its own: what is found needn't wait for kind and order there.
        match (value.kind, value.order) {
            (ValueKind::Long, Order::Little) => {
                get_value(m, s.arena(), place, ValueKind::Long, Order::Little)
            }
            (kind, order) => get_value(m, s.arena(), place, kind, order),
        }
    }

    /// Puts `v` as the value at these indices of the layout at the base (`VarHandle.set`). Other bytes stay.
    ///
    /// Refused, in this order: `IndexOut`, `ReadOnly`, `Bounds`, `Misaligned`, `WrongThread`, `Closed`. A refused write
    /// changes nothing, but for a value that crosses a word: it is put piece by piece, the lowest place first, each in a
    /// visit of its own, and where the arena is closed in between, the first piece stays put.
    pub fn set<R: Wait, M: Memory>(
        &self,
        rt: &R,
        m: &mut M,
        s: &Segment,
        base: u64,
        indices: &[u64],
        v: Value,
    ) -> Result<(), Refusal>
        requires { CanPut (M.view m.old) self.now s.now indices.now v }
        ensures { AfterSet (M.view m.old) (M.view m.new) self.now s.now base indices.now v result }
    {
        let place = self.writable_place_of(s, base, indices)?;
        put_value(rt, m, s.arena(), place, self.resolved.value().order, v)
    }
}
