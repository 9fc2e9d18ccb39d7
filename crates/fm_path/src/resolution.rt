ghost use Rattle.std.specs.Prelude.{◌≡◌, ◌≤◌, ◌+◌, Ok, Err, ℕ, IfOk, IfErr, MatchOption};
ghost use Rattle.fm_layout.specs.Parts.{IsValue};
ghost use Rattle.fm_layout.specs.Size.{size_of};
ghost use Rattle.fm_layout.specs.Tree.{Tree};
ghost use Rattle.fm_path_meaning.specs.Found.{FindsClosed, IsRefused, EndsElsewhere};
ghost use Rattle.fm_path_meaning.specs.Follow.{follow_closed};
ghost use Rattle.fm_path.specs.Resolution.{IsResolved, IsRefusal, IsSpecOf};

use crate::dims::Dims;
use crate::moves::{take, take_closed};
use crate::resolved::Resolved;
use crate::value_spec::ValueSpec;
use fm_base::Refusal;
use fm_layout::{Form, Layout};
use fm_path_text::PathStep;
use std::alloc::Global;

/// Where the path leads in the layout, in one pass (`MemoryLayout.varHandle`, Java SE 22).
///
/// Refused by the first step that can't be taken: `NotGroup`, then `NoMember` of a name or group index;
/// `NotSequence`, then `BadStep`, then `IndexOut` of the others. Then `NotValue` where the path ends at no value;
/// `Memory`. No refusal depends on the indices of an access.
pub fn resolve(alloc: Global, layout: &Layout, path: &[PathStep]) -> Result<Resolved, Refusal>
    ensures resolved { IfOk result (IsResolved path.now layout.now) }
    ensures refused { IfErr result (IsRefusal path.now layout.now) }
{
    let root_size = layout.size();
    let mut offset: u64 = 0;
    let mut dims = Dims::new(alloc);
    let mut here = layout;
    for (k, step) in path.iter().enumerate() {
        let moved = take(here, k as u64, step)?;
        offset = offset.saturating_add(moved.by);
        dims.add(moved.dim)?;
        here = moved.to;
    }
    match value_spec(here) {
        Some(value) => Ok(Resolved::of(offset, dims, value, root_size, layout.alignment())),
        None => Err(Refusal::NotValue),
    }
}

/// The offset, in bytes, of the layout that the path ends at (`MemoryLayout.byteOffset`, Java SE 22).
///
/// Refused by the first step that can't be taken: `StillOpen` where it leaves an index open, on whatever layout it
/// stands; else as `resolve`. Takes no memory.
pub fn byte_offset(layout: &Layout, path: &[PathStep]) -> Result<u64, Refusal>
    ensures place { IfOk result (λ at. (u : Tree) × FindsClosed path.now layout.now at u) }
    ensures refused { IfErr result (λ refusal. follow_closed path.now layout.now ≡ Err refusal) }
{
    let (offset, _) = locate(layout, path)?;
    Ok(offset)
}

/// The layout that the path ends at (`MemoryLayout.select`, Java SE 22), which needs not be a value.
///
/// Refused as `byte_offset`. Other than in Java, an element's index may stand in the path, and no step may leave an
/// index open. Takes no memory.
pub fn select<'a>(layout: &'a Layout, path: &[PathStep]) -> Result<&'a Layout, Refusal>
    ensures place { IfOk result (λ end. (at : ℕ) × FindsClosed path.now layout.now at end.now) }
    ensures refused { IfErr result (λ refusal. follow_closed path.now layout.now ≡ Err refusal) }
{
    let (_, end) = locate(layout, path)?;
    Ok(end)
}

/// The layout that the path ends at and its offset in bytes, in one pass. Refused as `byte_offset`. Takes no memory.
pub fn locate<'a>(layout: &'a Layout, path: &[PathStep]) -> Result<(u64, &'a Layout), Refusal>
    ensures place { IfOk result (λ found. FindsClosed path.now layout.now found.0 found.1.now) }
    ensures refused { IfErr result (λ refusal. follow_closed path.now layout.now ≡ Err refusal) }
{
    let _root_size = layout.size();
    let mut offset: u64 = 0;
    let mut here = layout;
    for (k, step) in path.iter().enumerate() {
        let moved = take_closed(here, k as u64, step)?;
        offset = offset.saturating_add(moved.by);
        here = moved.to;
    }
    Ok((offset, here))
}

/// What an access needs of a value layout; `None` exactly for every other layout.
fn value_spec(layout: &Layout) -> Option<ValueSpec>
    ensures { MatchOption result (IsValue layout.now → ⊥) (IsSpecOf layout.now) }
{
    match layout.form() {
        Form::Value(kind, order) => Some(ValueSpec {
            kind,
            order,
            alignment: layout.alignment(),
        }),
        _ => None,
    }
}
