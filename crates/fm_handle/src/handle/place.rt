ghost use Rattle.std.specs.Prelude.{◌≡◌, length, IfOk};
ghost use Rattle.fm_handle.specs.Place.{FindsWhere, Lies, RootStands, ValueStands, can_update, fills_word, is_word, root_place, place_of, supports, writable_place_of};

use super::VarHandle;
use fm_base::Refusal;
use fm_lanes::{Order, ValueKind};
use fm_segment::{Segment, is_aligned};

/// Which values a call works on.
#[derive(Clone, Copy)]
pub enum Support {
    /// A number that lies in one word.
    Number,
    /// A long that fills a word.
    Long,
    /// A long that is a word.
    Word,
}

impl VarHandle {
    /// The place in the arena of the layout at the base. Refused, in this order: `Bounds`, `Misaligned`.
    fn root_place(&self, s: &Segment, base: u64) -> Result<u64, Refusal>
        ensures place { result ≡ root_place base self.now s.now }
        ensures stands { IfOk result (RootStands self.now s.now) }
    {
        let root = s.as_slice(base, self.resolved.root_size())?;
        let first = root.first();
        if !is_aligned(first, self.resolved.root_alignment()) {
            return Err(Refusal::Misaligned);
        }
        Ok(first)
    }

    /// The place in the arena of the value. Refused, in this order: `IndexOut`, `Bounds`, `Misaligned`.
    pub fn place_of(&self, s: &Segment, base: u64, indices: &[u64]) -> Result<u64, Refusal>
        requires { length indices.now ≡ length self.now.dims }
        ensures place { result ≡ place_of base indices.now self.now s.now }
        ensures stands { IfOk result (ValueStands self.now s.now) }
    {
        let offset = self.resolved.offset_at(indices)?;
        let root = self.root_place(s, base)?;
        Ok(root + offset)
    }

    /// The same for a write. Refused, in this order: `IndexOut`, `ReadOnly`, `Bounds`, `Misaligned`.
    pub fn writable_place_of(&self, s: &Segment, base: u64, indices: &[u64]) -> Result<u64, Refusal>
        requires { length indices.now ≡ length self.now.dims }
        ensures place { result ≡ writable_place_of base indices.now self.now s.now }
        ensures stands { IfOk result (ValueStands self.now s.now) }
    {
        if s.is_read_only() {
            self.resolved.offset_at(indices)?;
            return Err(Refusal::ReadOnly);
        }
        self.place_of(s, base, indices)
    }

    /// The same for a call that doesn't work on every value. Refused first: `Unsupported`, where it doesn't on this one.
    /// Inlined, so that which values are asked for is a constant in each call.
    #[inline(always)]
    pub fn update_place_of(
        &self,
        support: Support,
        s: &Segment,
        base: u64,
        indices: &[u64],
    ) -> Result<u64, Refusal>
        requires { length indices.now ≡ length self.now.dims }
        ensures finds { FindsWhere (supports support self.now.value) base indices.now self.now s.now result }
        ensures lies { IfOk result (Lies support self.now.value) }
    {
        if !self.supports(support) {
            return Err(Refusal::Unsupported);
        }
        self.writable_place_of(s, base, indices)
    }

    #[inline(always)]
    fn supports(&self, support: Support) -> bool
        ensures { result ≡ supports support self.now.value }
    {
        match support {
            Support::Number => self.can_update(),
            Support::Long => self.fills_word(),
            Support::Word => self.is_word(),
        }
    }

    /// Whether the value is a number that lies in one word: an int or a long, at a multiple of its size.
    fn can_update(&self) -> bool
        ensures { result ≡ can_update self.now.value }
    {
        let value = self.resolved.value();
        match value.kind {
            ValueKind::Int => value.alignment >= 4,
            ValueKind::Long => value.alignment >= 8,
            _ => false,
        }
    }

    /// Whether the value is a long that fills a word.
    fn fills_word(&self) -> bool
        ensures { result ≡ fills_word self.now.value }
    {
        let value = self.resolved.value();
        matches!(value.kind, ValueKind::Long) && value.alignment >= 8
    }

    /// Whether the value is a long whose bytes are a word's, in the word's order.
    fn is_word(&self) -> bool
        ensures { result ≡ is_word self.now.value }
    {
        self.fills_word() && matches!(self.resolved.value().order, Order::Little)
    }
}
