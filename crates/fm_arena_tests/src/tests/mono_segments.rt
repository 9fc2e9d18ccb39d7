ghost use Rattle.std.specs.Prelude.{◌≤◌, ◌^◌};

mod access;
mod ranges;
mod story;

use crate::tests::compared::same;
use fm_base::{ArenaId, Kind, Refusal};
use fm_lanes::ValueKind;
use fm_layout::Layout;
use fm_segment::{Segment, is_aligned};
use std::test::Fail;

/// The end of every arena.
const LIMIT: u64 = 1 << 40;

/// A shared arena in this slot.
fn arena(slot: u32) -> ArenaId {
    ArenaId {
        slot,
        generation: 0,
        kind: Kind::Shared,
        owner: 0,
        term: 0,
    }
}

/// The places from the first to before the last of arena 0, open to writes.
fn places(first: u64, last: u64) -> Segment
    requires ordered { first ≤ last }
    requires low { last ≤ 2 ^ 40 }
{
    Segment::of(arena(0), first, last - first)
}

#[test]
fn a_segment_has_its_parts(rt: HostRuntime) {
    let segment = Segment::of(arena(3), 8, 24);
    same(&rt, segment.arena(), arena(3));
    same(&rt, (segment.first(), segment.size()), (8, 24));
    same(&rt, segment.is_read_only(), false);
    same(&rt, is_aligned(24, 8), true);
    same(&rt, is_aligned(20, 8), false);
    same(&rt, is_aligned(7, 1), true);
}

#[test]
fn slices_stay_in_bounds(rt: HostRuntime) {
    let segment = places(8, 32);
    for (offset, size, slice) in [
        (0, 24, Ok(places(8, 32))),
        (4, 8, Ok(places(12, 20))),
        (24, 0, Ok(places(32, 32))),
        (24, 1, Err(Refusal::Bounds)),
        (0, 25, Err(Refusal::Bounds)),
        (25, 0, Err(Refusal::Bounds)),
        (u64::MAX, 1, Err(Refusal::Bounds)),
        (1, u64::MAX, Err(Refusal::Bounds)),
    ] {
        same(
            &rt,
            (segment.as_slice(offset, size), (offset, size)),
            (slice, (offset, size)),
        );
    }
    for (offset, slice) in [
        (0, Ok(places(8, 32))),
        (23, Ok(places(31, 32))),
        (24, Ok(places(32, 32))),
        (25, Err(Refusal::Bounds)),
    ] {
        same(
            &rt,
            (segment.as_slice_from(offset), offset),
            (slice, offset),
        );
    }
}

#[test]
fn alignments_are_of_places(rt: HostRuntime) {
    let segment = places(4, 28);
    for (offset, size, align, slice) in [
        (4, 8, 8, Ok(places(8, 16))),
        (0, 4, 4, Ok(places(4, 8))),
        (24, 0, 4, Ok(places(28, 28))),
        (0, 8, 8, Err(Refusal::Misaligned)),
        (1, 1, 2, Err(Refusal::Misaligned)),
        (1, 24, 2, Err(Refusal::Bounds)),
        (25, 0, 3, Err(Refusal::BadAlignment)),
        (0, 0, 0, Err(Refusal::BadAlignment)),
    ] {
        let found = segment.as_slice_aligned(offset, size, align);
        same(
            &rt,
            (found, (offset, size, align)),
            (slice, (offset, size, align)),
        );
    }
}

#[test]
fn slices_of_slices_stay_read_only(rt: HostRuntime) -> Result<(), Fail> {
    let segment = places(8, 32);
    let inner = segment.as_slice(4, 16)?.as_slice_from(4)?;
    same(&rt, inner, places(16, 28));
    same(&rt, inner.as_slice(12, 1), Err(Refusal::Bounds));
    let kept = segment.as_read_only();
    same(&rt, (kept.first(), kept.size()), (8, 24));
    for slice in [
        kept.as_slice(4, 16)?,
        kept.as_slice_from(4)?,
        kept.as_slice_aligned(8, 8, 8)?,
        kept.as_slice(4, 16)?.as_slice(0, 0)?,
    ] {
        same(&rt, slice.is_read_only(), true);
    }
    Ok(())
}

#[test]
fn the_last_byte_is_a_slice(rt: HostRuntime) {
    let whole = places(0, LIMIT);
    let last = places(LIMIT - 1, LIMIT);
    same(
        &rt,
        whole.as_slice(LIMIT - 1, 1),
        Ok(places(LIMIT - 1, LIMIT)),
    );
    same(&rt, whole.as_slice_from(LIMIT), Ok(places(LIMIT, LIMIT)));
    same(&rt, whole.as_slice(LIMIT, 1), Err(Refusal::Bounds));
    same(&rt, whole.overlap(&last), Some(places(LIMIT - 1, LIMIT)));
}

/// With the places 8 to 24, in both directions.
#[test]
fn overlaps_are_slices_of_the_first(rt: HostRuntime) {
    let segment = places(8, 24);
    for (other, shared) in [
        (places(0, 9), Some(places(8, 9))),
        (places(0, 24), Some(places(8, 24))),
        (places(0, 40), Some(places(8, 24))),
        (places(8, 12), Some(places(8, 12))),
        (places(8, 24), Some(places(8, 24))),
        (places(12, 16), Some(places(12, 16))),
        (places(12, 40), Some(places(12, 24))),
        (places(23, 24), Some(places(23, 24))),
        (places(0, 8), None),
        (places(24, 40), None),
        (places(12, 12), None),
        (Segment::of(arena(1), 8, 16), None),
    ] {
        let first = other.first();
        assert_eq!(rt; segment.overlap(&other), shared, "from {first}");
        assert_eq!(rt; other.overlap(&segment), shared, "from {first}");
    }
    same(&rt, places(12, 12).overlap(&places(12, 12)), None);
}

#[test]
fn an_overlap_is_written_as_the_first_is(rt: HostRuntime) {
    let segment = places(8, 24);
    let kept = segment.as_read_only();
    let other = places(16, 32);
    same(
        &rt,
        kept.overlap(&other),
        Some(places(16, 24).as_read_only()),
    );
    same(&rt, other.overlap(&kept), Some(places(16, 24)));
}

#[test]
fn elements_are_the_consecutive_slices(rt: HostRuntime) {
    let long = Layout::value(ValueKind::Long);
    let mut elements = places(8, 32).elements(&long).expect(&rt, "elements");
    same(&rt, elements.next(), Some(places(8, 16)));
    same(&rt, elements.next(), Some(places(16, 24)));
    same(&rt, elements.next(), Some(places(24, 32)));
    same(&rt, elements.next(), None);
    let mut none = places(8, 8).elements(&long).expect(&rt, "elements");
    same(&rt, none.next(), None);
    let kept = places(8, 32).as_read_only();
    for element in kept.elements(&long).expect(&rt, "elements") {
        same(&rt, (element.is_read_only(), element.size()), (true, 8));
    }
}

#[test]
fn elements_are_refused_in_order(rt: HostRuntime) {
    let empty = Layout::structure(Vec::new(rt.alloc())).expect(&rt, "a layout");
    let long = Layout::value(ValueKind::Long);
    let int = Layout::value(ValueKind::Int);
    let ragged = int.with_alignment(8).expect(&rt, "an alignment");
    for (layout, segment, refusal) in [
        (&empty, places(1, 21), Refusal::NoSize),
        (&long, places(1, 21), Refusal::Ragged(4)),
        (&long, places(4, 28), Refusal::Misaligned),
        (&ragged, places(1, 22), Refusal::Ragged(1)),
        (&ragged, places(4, 24), Refusal::ElementRagged),
    ] {
        let found = segment.elements(layout).err();
        same(
            &rt,
            (found, segment.first()),
            (Some(refusal), segment.first()),
        );
    }
}
