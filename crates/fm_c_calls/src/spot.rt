ghost use Rattle.std.specs.Prelude.{◌≡◌, ◌+◌, ◌<◌, ◌^◌, length, MatchOption, MatchResult};
ghost use Rattle.fm_path_meaning.specs.Steady.{IsInside};
ghost use Rattle.fm_path_meaning.specs.Walk.{AreAdmitted, reach};
ghost use Rattle.fm_c_calls.specs.Located.{FindsAt, IsOut, IsReached, IsUnreached, LeadsTo, LeadsNowhere, code_width, dims_of};

use crate::place::{Place, Stride};
use fm_base::Refusal;

/// Where a record stands: in so many bytes, from the `base`th on.
#[repr(C)]
#[derive(Clone, Copy, Debug, PartialEq, Eq)]
pub struct Within {
    pub size: u64,
    pub base: u64,
}

/// Puts where the value stands to which a resolved path leads at these indices, one for each open step, in bytes from the
/// start of those in which the record stands. Takes no memory.
///
/// Refused, in this order: `IndexOut` with the first index that isn't below its bound, is missing, or is one too many;
/// `Bounds` where the record passes the end of the bytes, or where the numbers of the place lead out of the record, which
/// those that `put_place` puts never do. A refused call puts nothing.
pub fn find_at(
    place: &Place,
    strides: &[Stride],
    indices: &[u64],
    within: &Within,
    at: &mut u64,
) -> Result<u64, Refusal>
    ensures { FindsAt place.now strides.now indices.now within.now at.old at.new result }
{
    match find_out(0, strides, indices) {
        Some(k) => return Err(Refusal::IndexOut(k)),
        None => {}
    }
    if within.size < place.root_size || within.size - place.root_size < within.base {
        return Err(Refusal::Bounds);
    }
    match offset_in(place, strides, indices) {
        Some(offset) => {
            *at = within.base + offset;
            Ok(0)
        }
        None => Err(Refusal::Bounds),
    }
}

/// The first index, counted from `k`, that isn't below its bound, is missing, or is one too many.
#[tactic(auto, using(crate::proofs::Out::missing, crate::proofs::Out::surplus))]
fn find_out(k: u64, strides: &[Stride], indices: &[u64]) -> Option<u64>
    requires { k + length strides.now < 2 ^ 64 }
    ensures { MatchOption result (AreAdmitted (dims_of strides.now) indices.now) (IsOut k strides.now indices.now) }
{
    match strides {
        [] => { if indices.is_empty() { None } else { Some(k) } }
        [stride, more @ ..] => {
            if indices.is_empty() || indices[0] >= stride.bound {
                Some(k)
            } else {
                find_out(k + 1, more, &indices[1..])
            }
        }
    }
}

/// The offset of the value in its record, where all of it lies there.
fn offset_in(place: &Place, strides: &[Stride], indices: &[u64]) -> Option<u64>
    requires { AreAdmitted (dims_of strides.now) indices.now }
    ensures { MatchOption result (LeadsNowhere place.now strides.now indices.now) (LeadsTo place.now strides.now indices.now) }
{
    let offset = reach_all(place.offset, strides, indices)?;
    let width = width_of_code(place.kind);
    if place.root_size < width || place.root_size - width < offset {
        return None;
    }
    Some(offset)
}

/// The offset at these indices, if no sum on the way passes 64 bits or falls below 0.
fn reach_all(at: u64, strides: &[Stride], indices: &[u64]) -> Option<u64>
    requires { AreAdmitted (dims_of strides.now) indices.now }
    ensures { MatchOption result (IsUnreached at strides.now indices.now) (IsReached at strides.now indices.now) }
{
    match strides {
        [] => Some(at),
        [stride, more @ ..] => {
            let next = move_by(at, stride.stride, indices[0])?;
            reach_all(next, more, &indices[1..])
        }
    }
}

/// The offset an index further on, or back, if it is none below 0 and none of more than 64 bits.
fn move_by(at: u64, stride: i64, index: u64) -> Option<u64>
    ensures { MatchOption result (¬ (IsInside at stride index)) (λ n. IsInside at stride index × (n ≡ reach at stride index)) }
{
    let by = stride.unsigned_abs().checked_mul(index)?;
    if stride < 0 {
        at.checked_sub(by)
    } else {
        at.checked_add(by)
    }
}

fn width_of_code(kind: u64) -> u64
    ensures { result ≡ code_width kind }
{
    if kind <= 1 {
        1
    } else if kind <= 3 {
        2
    } else if kind == 4 {
        4
    } else {
        8
    }
}
