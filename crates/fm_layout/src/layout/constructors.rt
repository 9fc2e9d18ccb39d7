ghost use Rattle.std.specs.Prelude.{◌≡◌, ◌*◌, ◌<◌, ◌⊎◌, Some, None, IfOk, IfErr, Ok, Err};
ghost use Rattle.fm_layout.specs.WellFormed.{IsWellFormed};
ghost use Rattle.fm_layout.specs.Size.{least_of};
ghost use Rattle.fm_layout.specs.Parts.{IsPadding, IsValue};
ghost use Rattle.fm_layout.specs.Name.{IsName};
ghost use Rattle.fm_layout.specs.Made.{padding_of, sequence_fault, sequence_of, struct_of, union_of, value_of, with_alignment, with_name, with_order};
ghost use Rattle.fm_layout.specs.Views.{trees};

use super::extent::{LIMIT, greatest_alignment, struct_extent, union_extent};
use super::{Layout, Node};
use crate::form::Form;
use fm_base::Refusal;
use fm_lanes::{Order, ValueKind};
use std::alloc::Global;

impl Layout {
    /// A value of this kind, in little byte order, with its width as its alignment (`ValueLayout`).
    pub fn value(kind: ValueKind) -> Layout
        ensures made { result ≡ value_of kind }
        ensures well_formed { IsWellFormed result }
    {
        let size = u64::from(kind.width());
        Layout {
            size,
            alignment: size,
            name: None,
            node: Node::Value(kind, Order::Little),
        }
    }

    /// So many bytes of padding, aligned to 1 (`paddingLayout`).
    ///
    /// Refused, in this order: `BadPadding` for 0 bytes, `Overflow` past 2^40.
    pub fn padding(size: u64) -> Result<Layout, Refusal>
        ensures made { result ≡ padding_of size }
        ensures well_formed { IfOk result IsWellFormed }
    {
        if size == 0 {
            return Err(Refusal::BadPadding);
        }
        if size > LIMIT {
            return Err(Refusal::Overflow);
        }
        Ok(Layout {
            size,
            alignment: 1,
            name: None,
            node: Node::Padding,
        })
    }

    /// So many elements, one after the other (`sequenceLayout`). Its alignment is the element's.
    ///
    /// Refused, in this order: `ElementRagged` where the element's size isn't a multiple of its alignment, `Overflow`
    /// where the size would pass 2^40, `Memory`.
    pub fn sequence(alloc: Global, count: u64, element: Layout) -> Result<Layout, Refusal>
        ensures made { (result ≡ Err Refusal.Memory) ⊎ (result ≡ sequence_of count element) }
        ensures well_formed { IfOk result IsWellFormed }
    {
        let alignment = element.alignment();
        let size = sequence_size(count, element.size(), alignment)?;
        let Ok(element) = Box::new(alloc, element) else {
            return Err(Refusal::Memory);
        };
        Ok(Layout {
            size,
            alignment,
            name: None,
            node: Node::Sequence(count, element),
        })
    }

    /// These members, one after the other (`structLayout`). Its alignment is the greatest of theirs, 1 without any.
    /// No padding is put in.
    ///
    /// Refused at the first member that breaks the rule: `MemberMisaligned` with its index and offset where it
    /// doesn't stand at a multiple of its alignment, `Overflow` where the size up to its end would pass 2^40.
    pub fn structure(members: Vec<Layout>) -> Result<Layout, Refusal>
        ensures made { result ≡ struct_of (trees members.items) }
        ensures well_formed { IfOk result IsWellFormed }
    {
        let extent = struct_extent(&members)?;
        Ok(Layout {
            size: extent.size,
            alignment: extent.alignment,
            name: None,
            node: Node::Struct(members),
        })
    }

    /// These members, each at the start (`unionLayout`). Size and alignment are the greatest of theirs, 0 and 1
    /// without any.
    pub fn union_of(members: Vec<Layout>) -> Layout
        ensures made { result ≡ union_of (trees members.items) }
        ensures well_formed { IsWellFormed result }
    {
        let extent = union_extent(&members);
        Layout {
            size: extent.size,
            alignment: extent.alignment,
            name: None,
            node: Node::Union(members),
        }
    }

    /// The layout under this name, in place of any that it had (`withName`). Refused: `Memory`.
    pub fn with_name(self, alloc: Global, name: &str) -> Result<Layout, Refusal>
        requires { IsName name.now }
        ensures named { (result ≡ Err Refusal.Memory) ⊎ (result ≡ Ok (with_name name.now self)) }
        ensures well_formed { IfOk result IsWellFormed }
    {
        let Ok(name) = String::from_str(alloc, name) else {
            return Err(Refusal::Memory);
        };
        Ok(Layout {
            size: self.size,
            alignment: self.alignment,
            name: Some(name),
            node: self.node,
        })
    }

    /// The value layout in this byte order (`withOrder`).
    pub fn with_order(self, order: Order) -> Layout
        requires { IsValue self }
        ensures ordered { result ≡ with_order order self }
        ensures well_formed { IsWellFormed result }
    {
        match self.form() {
            Form::Value(kind, _) => Layout {
                size: self.size,
                alignment: self.alignment,
                name: self.name,
                node: Node::Value(kind, order),
            },
            _ => self,
        }
    }

    /// The layout with this alignment, in bytes (`withByteAlignment`).
    ///
    /// Refused, in this order: `BadAlignment` where it is no power of two, `Overflow` past 2^40, `AlignmentBelow` the
    /// least one, which is that of its members or element, and 1 for a value.
    pub fn with_alignment(self, n: u64) -> Result<Layout, Refusal>
        requires { ¬ (IsPadding self) }
        ensures aligned { result ≡ with_alignment n self }
        ensures well_formed { IfOk result IsWellFormed }
    {
        if !n.is_power_of_two() {
            return Err(Refusal::BadAlignment);
        }
        if n > LIMIT {
            return Err(Refusal::Overflow);
        }
        let least = self.least();
        if n < least {
            return Err(Refusal::AlignmentBelow(least));
        }
        Ok(Layout {
            size: self.size,
            alignment: n,
            name: self.name,
            node: self.node,
        })
    }

    /// The least alignment that it may have.
    fn least(&self) -> u64
        ensures { result ≡ least_of self.now }
    {
        match &self.node {
            Node::Value(_, _) | Node::Padding => 1,
            Node::Sequence(_, element) => element.alignment(),
            Node::Struct(members) | Node::Union(members) => greatest_alignment(members),
        }
    }
}

/// The size of so many elements of this size and alignment.
fn sequence_size(count: u64, size: u64, alignment: u64) -> Result<u64, Refusal>
    requires { 0 < alignment }
    ensures size { IfOk result (λ n. (sequence_fault count size alignment ≡ None) × (n ≡ count * size)) }
    ensures fault { IfErr result (λ r. sequence_fault count size alignment ≡ Some r) }
{
    if size % alignment != 0 {
        return Err(Refusal::ElementRagged);
    }
    match count.checked_mul(size) {
        Some(whole) if whole <= LIMIT => Ok(whole),
        _ => Err(Refusal::Overflow),
    }
}
