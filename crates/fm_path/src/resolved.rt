ghost use Rattle.std.specs.Prelude.{◌≡◌, length, IfOk, IfErr, ℕ, ◌^◌, ◌<◌, ◌≤◌};
ghost use Rattle.std.specs.Int.{IsPowerOfTwo};
ghost use Rattle.fm_path_meaning.specs.Found.{IsFirstOut};
ghost use Rattle.fm_path_meaning.specs.Walk.{AreAdmitted, offset_at, reach};
ghost use Rattle.fm_path_meaning.specs.Steady.{IsInside};
ghost use Rattle.fm_path.specs.Resolution.{StaysInside};

use crate::dims::Dims;
use crate::value_spec::ValueSpec;
use fm_base::Refusal;
use fm_path_meaning::Dim;
use std::marker::Model;

/// A path that was resolved against a layout, the root: where its value stands, and what an access by it must hold.
///
/// Sizes and offsets are in bytes from the root's start.
#[derive(Debug, Drop)]
pub struct Resolved {
    offset: u64,
    dims: Dims,
    value: ValueSpec,
    root_size: u64,
    root_alignment: u64,
}

impl Model for Resolved {
    ghost use Rattle.fm_path.specs.Resolution.{Resolution, resolution, StaysInside};

    ghost Value = { Resolution };

    ghost view = { λ r. resolution r.offset r.dims r.value r.root_size r.root_alignment };

    ghost invariant = { λ r. StaysInside (resolution r.offset r.dims r.value r.root_size r.root_alignment) };
}

impl Resolved {
    ghost use Rattle.fm_path.specs.Resolution.{StaysInside, resolution};

    /// What these parts make.
    pub(crate) fn of(
        offset: u64,
        dims: Dims,
        value: ValueSpec,
        root_size: u64,
        root_alignment: u64,
    ) -> Resolved
        requires { StaysInside (resolution offset dims value root_size root_alignment) }
        ensures { result ≡ resolution offset dims value root_size root_alignment }
    {
        Resolved {
            offset,
            dims,
            value,
            root_size,
            root_alignment,
        }
    }

    /// The offset at index 0 for each open step, those that start further on included.
    pub fn offset(&self) -> u64
        ensures { result ≡ self.now.offset }
    {
        self.offset
    }

    /// What each open index does to the offset.
    pub fn dims(&self) -> &Dims
        ensures { result.now ≡ self.now.dims }
    {
        &self.dims
    }

    pub fn value(&self) -> &ValueSpec
        ensures { result.now ≡ self.now.value }
    {
        &self.value
    }

    pub fn root_size(&self) -> u64
        ensures { result ≡ self.now.root_size }
    {
        self.root_size
    }

    pub fn root_alignment(&self) -> u64
        ensures alignment { result ≡ self.now.root_alignment }
        ensures power { IsPowerOfTwo result }
    {
        self.root_alignment
    }

    /// The offset of the value at one index for each open step, in their order.
    ///
    /// Refused: `IndexOut` with the first index, counted from 0, that isn't below its bound.
    pub fn offset_at(&self, indices: &[u64]) -> Result<u64, Refusal>
        requires { length indices.now ≡ length self.now.dims }
        ensures admitted { IfOk result (λ _. AreAdmitted self.now.dims indices.now) }
        ensures offset { IfOk result (λ at. at ≡ offset_at self.now.offset self.now.dims indices.now) }
        ensures inside { StaysInside self.now }
        ensures out { IfErr result (IsFirstOut 0 self.now.dims indices.now) }
    {
        let dims = self.dims.as_slice();
        let mut at = self.offset;
        for (k, dim) in dims.iter().enumerate() {
            if indices[k] >= dim.bound {
                return Err(Refusal::IndexOut(k as u64));
            }
            at = moved_by(at, *dim, indices[k]);
        }
        Ok(at)
    }
}

/// The offset an index further on, or back. The sum wraps only where another index isn't admitted, and is let go there.
fn moved_by(at: u64, dim: Dim, index: u64) -> u64
    ensures { IsInside at dim.stride index → result ≡ reach at dim.stride index }
{
    at.wrapping_add(dim.stride.cast_unsigned().wrapping_mul(index))
}
