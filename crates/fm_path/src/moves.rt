ghost use Rattle.std.specs.Prelude.{◌≡◌, ◌≢◌, ◌<◌, ◌≤◌, ◌+◌, ◌*◌, ◌^◌, Some, None, IfOk, IsTrue, ◌↔◌, pos};
ghost use Rattle.std.specs.Option.{option_copied};
ghost use Rattle.fm_layout.specs.Size.{size_of};
ghost use Rattle.fm_layout.specs.WellFormed.{IsWellFormed};
ghost use Rattle.fm_layout.specs.Tree.{name_of};
ghost use Rattle.fm_path_meaning.specs.Follow.{members_of, row_of, row_or, is_name_of, index_in, count_in, IsStruct};
ghost use Rattle.fm_path_meaning.specs.Steady.{IsShort, IsRow};
ghost use Rattle.fm_layout.specs.Size.{member_offset};
ghost use Rattle.fm_path_meaning.specs.Walk.{bound_of, stride_of, move, move_closed};
ghost use Rattle.fm_path.specs.Moving.{Gives, Moves};

use fm_base::Refusal;
use fm_layout::{Form, Layout};
use fm_path_meaning::Dim;
use fm_path_text::{NameText, PathStep};

/// Where one step leads: so many bytes on, with a dim where the step is left open.
#[derive(Clone, Copy)]
pub struct Move<'a> {
    pub by: u64,
    pub dim: Option<Dim>,
    pub to: &'a Layout,
}

/// Where step `k` leads from this layout.
pub fn take<'a>(layout: &'a Layout, k: u64, step: &PathStep) -> Result<Move<'a>, Refusal>
    ensures { Moves result (move k step.now layout.now) }
{
    match step {
        PathStep::Name(name) => take_name(layout, k, name),
        PathStep::Group(n) => take_group(layout, k, *n),
        PathStep::At(n) => take_at(layout, k, *n),
        PathStep::Each => take_each(layout, k),
        PathStep::EachFrom(first, step) => take_from(layout, k, *first, *step),
    }
}

/// The same where no step may be left open.
pub fn take_closed<'a>(layout: &'a Layout, k: u64, step: &PathStep) -> Result<Move<'a>, Refusal>
    ensures { Moves result (move_closed k step.now layout.now) }
{
    match step {
        PathStep::Each | PathStep::EachFrom(_, _) => Err(Refusal::StillOpen(k)),
        PathStep::Name(_) | PathStep::Group(_) | PathStep::At(_) => take(layout, k, step),
    }
}

fn take_name<'a>(layout: &'a Layout, k: u64, name: &NameText) -> Result<Move<'a>, Refusal>
    ensures { Moves result (move k (PathStep.Name name.now) layout.now) }
{
    if member_count(layout).is_none() {
        return Err(Refusal::NotGroup(k));
    }
    match index_of(layout, name.as_bytes()) {
        Some(n) => take_group(layout, k, n),
        None => Err(Refusal::NoMember(k)),
    }
}

fn take_group(layout: &Layout, k: u64, n: u64) -> Result<Move<'_>, Refusal>
    ensures { Moves result (move k (PathStep.Group n) layout.now) }
{
    let by = match layout.form() {
        Form::Struct(_) => bytes_before(layout, n),
        Form::Union(_) => 0,
        _ => return Err(Refusal::NotGroup(k)),
    };
    match layout.member(n) {
        Some(to) => Ok(Move { by, dim: None, to }),
        None => Err(Refusal::NoMember(k)),
    }
}

fn take_at(layout: &Layout, k: u64, n: u64) -> Result<Move<'_>, Refusal>
    ensures { Moves result (move k (PathStep.At n) layout.now) }
{
    let (count, to) = row(layout, k)?;
    if n < count {
        Ok(Move {
            by: n * to.size(),
            dim: None,
            to,
        })
    } else {
        Err(Refusal::IndexOut(k))
    }
}

#[tactic(auto, using(crate::proofs::Resolving::size_small))]
fn take_each(layout: &Layout, k: u64) -> Result<Move<'_>, Refusal>
    ensures { Moves result (move k PathStep.Each layout.now) }
{
    let (count, to) = row(layout, k)?;
    let dim = Dim {
        stride: signed(to.size()),
        bound: count,
    };
    Ok(Move {
        by: 0,
        dim: Some(dim),
        to,
    })
}

fn take_from(layout: &Layout, k: u64, first: u64, step: i64) -> Result<Move<'_>, Refusal>
    ensures { Moves result (move k (PathStep.EachFrom first step) layout.now) }
{
    let (count, to) = row(layout, k)?;
    if step == 0 {
        return Err(Refusal::BadStep(k));
    }
    if first >= count {
        return Err(Refusal::IndexOut(k));
    }
    let bound = bound(first, step, count);
    let bytes = to.size();
    let stride = stride(step, bytes, bound);
    Ok(Move {
        by: first * bytes,
        dim: Some(Dim { stride, bound }),
        to,
    })
}

/// How many elements a sequence has, and their layout.
fn row(layout: &Layout, k: u64) -> Result<(u64, &Layout), Refusal>
    ensures row { Gives (λ r. (r.0, r.1.now)) result (row_or k (row_of layout.now)) }
    ensures fits { IfOk result (λ r. IsRow r.0 r.1.now) }
{
    match (layout.form(), layout.element()) {
        (Form::Sequence(count), Some(element)) => Ok((count, element)),
        _ => Err(Refusal::NotSequence(k)),
    }
}

/// The index of the first member of this name, from 0.
#[tactic(auto, using(fm_path_meaning::proofs::Members::seek_start, fm_path_meaning::proofs::Members::seek_more, fm_path_meaning::proofs::Members::seek_found, fm_path_meaning::proofs::Members::seek_past, fm_path_meaning::proofs::Members::seek_end,))]
pub fn index_of(layout: &Layout, name: &[u8]) -> Option<u64>
    ensures { result ≡ index_in name.now (members_of layout.now) }
{
    let count = member_count(layout)?;
    for i in 0..count {
        match layout.member(i) {
            Some(member) => {
                if is_named(member, name) {
                    return Some(i);
                }
            }
            None => return None,
        }
    }
    None
}

/// How many members a struct or union has.
fn member_count(layout: &Layout) -> Option<u64>
    ensures { result ≡ count_in (members_of layout.now) }
{
    match layout.form() {
        Form::Struct(count) | Form::Union(count) => Some(count),
        _ => None,
    }
}

fn is_named(layout: &Layout, name: &[u8]) -> bool
    ensures { result ≡ is_name_of (name_of layout.now) name.now }
{
    match layout.name() {
        Some(own) => own.as_bytes() == name,
        None => false,
    }
}

/// The bytes before member `n` of a struct.
#[tactic(auto, using(fm_path_meaning::proofs::Members::offset_none, fm_path_meaning::proofs::Members::offset_more, fm_path_meaning::proofs::Members::offset_end, fm_path_meaning::proofs::Members::offset_fits,))]
fn bytes_before(layout: &Layout, n: u64) -> u64
    requires kind { IsStruct layout.now }
    requires well { IsWellFormed layout.now }
    ensures offset { result ≡ member_offset n layout.now }
    ensures fits { result ≤ 2 ^ 40 }
{
    let mut by = 0;
    for i in 0..n {
        match layout.member(i) {
            Some(member) => by += member.size(),
            None => return by,
        }
    }
    by
}

/// How many indices from 0 lead from element `first`, by `step` elements each, to an element below `count`.
fn bound(first: u64, step: i64, count: u64) -> u64
    requires first { first < count }
    requires step { step ≢ pos 0 }
    ensures { result ≡ bound_of first step count }
{
    if step > 0 {
        (count - first - 1) / step.unsigned_abs() + 1
    } else {
        first / step.unsigned_abs() + 1
    }
}

/// The bytes from one index to the next: none where there is no next one.
fn stride(step: i64, bytes: u64, bound: u64) -> i64
    requires bytes { bytes ≤ 2 ^ 40 }
    requires fits { IsShort step bytes bound }
    ensures { result ≡ stride_of step bytes bound }
{
    if bound == 1 { 0 } else { step * (bytes as i64) }
}

/// A size as the stride of neighbours.
fn signed(bytes: u64) -> i64
    requires { bytes ≤ 2 ^ 40 }
    ensures { result ≡ pos bytes }
{
    bytes as i64
}
