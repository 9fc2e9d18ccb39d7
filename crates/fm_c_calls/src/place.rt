ghost use Rattle.std.specs.Prelude.{◌≡◌, IfOk, IfErr};
ghost use Rattle.fm_path.specs.Resolution.{StaysInside};
ghost use Rattle.fm_c_calls.specs.Placed.{IsNoPlace, IsPlaced, IsPlacedIn, IsUnplacedIn, PutsPlace, kind_code, order_code, place_of, stride_of, strides_of};

use crate::output::put_front;
use crate::reading::{read_layout, read_text};
use fm_base::Refusal;
use fm_lanes::{Order, ValueKind};
use fm_layout::Layout;
use fm_path::{Dim, Resolved, parse_path, resolve};
use std::alloc::{AllocError, Global};

/// A resolved path: where its value stands, and what an access by it must hold. Sizes and offsets are in bytes.
#[repr(C)]
#[derive(Clone, Copy, Debug, PartialEq, Eq)]
pub struct Place {
    /// The offset at index 0 for each open step.
    pub offset: u64,
    /// 0 byte, 1 boolean, 2 char, 3 short, 4 int, 5 long.
    pub kind: u64,
    /// 0 little, 1 big.
    pub order: u64,
    /// The value's alignment.
    pub alignment: u64,
    /// The layout's size.
    pub root_size: u64,
    /// The layout's alignment.
    pub root_alignment: u64,
}

/// What the index of an open step does to the offset: so many bytes from one to the next, and so many indices from 0 on.
#[repr(C)]
#[derive(Clone, Copy, Debug, PartialEq, Eq)]
pub struct Stride {
    pub stride: i64,
    pub bound: u64,
}

/// Puts where the path leads in the layout whose JSON the bytes are, and the strides of its open steps.
///
/// Refused, in this order: as `layout_from_json` of `fm_ljson`; `NotText` where the path isn't UTF-8, with the length of
/// its longest front that is; as `parse_path` and then `resolve` of `fm_path`. A refused call puts nothing.
pub fn put_place(
    alloc: Global,
    json: &[u8],
    path: &[u8],
    place: &mut Place,
    strides: &mut [Stride],
) -> Result<u64, Refusal>
    ensures { PutsPlace json.now path.now place.old place.new strides.old strides.new result }
{
    let resolved = match resolve_bytes(alloc, json, path) {
        Ok(resolved) => resolved,
        Err(refusal) => return Err(refusal),
    };
    let Ok(all) = strides_of(alloc, resolved.dims().as_slice()) else {
        return Err(Refusal::Memory);
    };
    *place = numbers_of(&resolved);
    Ok(put_front(strides, &all))
}

/// The path that the bytes spell, resolved against the layout whose JSON those are. Refused as `put_place`.
pub fn resolve_bytes(alloc: Global, json: &[u8], path: &[u8]) -> Result<Resolved, Refusal>
    ensures placed { IfOk result (IsPlaced json.now path.now) }
    ensures inside { IfOk result StaysInside }
    ensures refused { IfErr result (IsNoPlace json.now path.now) }
{
    let layout = read_layout(alloc, json)?;
    resolve_in(alloc, &layout, path)
}

/// The path that the bytes spell, resolved against a layout. Refused as `put_place`, but for the layout's JSON.
pub fn resolve_in(alloc: Global, layout: &Layout, path: &[u8]) -> Result<Resolved, Refusal>
    ensures resolved { IfOk result (IsPlacedIn path.now layout.now) }
    ensures inside { IfOk result StaysInside }
    ensures refused { IfErr result (IsUnplacedIn path.now layout.now) }
{
    let text = match read_text(path) {
        Ok(text) => text,
        Err(refusal) => return Err(refusal),
    };
    let steps = match parse_path(alloc, text) {
        Ok(steps) => steps,
        Err(refusal) => return Err(refusal),
    };
    resolve(alloc, layout, &steps)
}

fn numbers_of(resolved: &Resolved) -> Place
    ensures { result ≡ place_of resolved.now }
{
    let value = resolved.value();
    Place {
        offset: resolved.offset(),
        kind: code_of_kind(value.kind),
        order: code_of_order(value.order),
        alignment: value.alignment,
        root_size: resolved.root_size(),
        root_alignment: resolved.root_alignment(),
    }
}

fn code_of_kind(kind: ValueKind) -> u64
    ensures { result ≡ kind_code kind }
{
    match kind {
        ValueKind::Byte => 0,
        ValueKind::Boolean => 1,
        ValueKind::Char => 2,
        ValueKind::Short => 3,
        ValueKind::Int => 4,
        ValueKind::Long => 5,
    }
}

fn code_of_order(order: Order) -> u64
    ensures { result ≡ order_code order }
{
    match order {
        Order::Little => 0,
        Order::Big => 1,
    }
}

/// The strides of these dims.
fn strides_of(alloc: Global, dims: &[Dim]) -> Result<Vec<Stride>, AllocError>
    ensures { IfOk result (λ strides. strides.items ≡ strides_of dims.now) }
{
    let mut strides = Vec::new(alloc);
    for dim in dims {
        strides.push(stride_of(*dim))?;
    }
    Ok(strides)
}

fn stride_of(dim: Dim) -> Stride
    ensures { result ≡ stride_of dim }
{
    Stride {
        stride: dim.stride,
        bound: dim.bound,
    }
}
