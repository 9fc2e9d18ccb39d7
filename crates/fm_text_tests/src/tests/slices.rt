ghost use Rattle.std.specs.Prelude.{◌+◌, ◌≤◌, ◌^◌};

use crate::tests::calls::same;
use fm_base::{ArenaId, Kind, Refusal};
use fm_segment::Segment;
use fm_text::{PrefixAllocator, SlicingAllocator, slices_lie_apart};

/// So many bytes of an arena, from a place on.
fn bytes(first: u64, size: u64) -> Segment
    requires { first + size ≤ 2 ^ 40 }
{
    let arena = ArenaId {
        slot: 0,
        generation: 0,
        kind: Kind::Shared,
        owner: 0,
        term: 0,
    };
    Segment::of(arena, first, size)
}

#[test]
fn slices_follow_one_another(rt: HostRuntime) {
    slices_lie_apart();
    let mut slices = SlicingAllocator::over(bytes(0, 16));
    same(&rt, slices.used(), 0);
    for (size, align, slice, used) in [
        (3, 1, Ok(bytes(0, 3)), 3),
        (8, 3, Err(Refusal::BadAlignment), 3),
        (8, 0, Err(Refusal::BadAlignment), 3),
        (1, 16, Err(Refusal::Bounds), 3),
        (14, 1, Err(Refusal::Bounds), 3),
        (u64::MAX, 1, Err(Refusal::Bounds), 3),
        (u64::MAX, 8, Err(Refusal::Bounds), 3),
        (0, 1 << 63, Err(Refusal::Bounds), 3),
        (8, 8, Ok(bytes(8, 8)), 16),
        (1, 1, Err(Refusal::Bounds), 16),
        (0, 16, Ok(bytes(16, 0)), 16),
    ] {
        let found = slices.allocate(size, align);
        same(&rt, (found, slices.used(), align), (slice, used, align));
    }
}

/// The alignment is that of the place in the arena.
#[test]
fn a_slice_is_aligned_in_its_arena(rt: HostRuntime) {
    let end = 1 << 40;
    let mut slices = SlicingAllocator::over(bytes(5, end - 5));
    for (size, align, slice, used) in [
        (1, 4, Ok(bytes(8, 1)), 4),
        (1, 1, Ok(bytes(9, 1)), 5),
        (7, 8, Ok(bytes(16, 7)), 18),
        (1, 1 << 30, Ok(bytes(1 << 30, 1)), (1 << 30) - 4),
        (1, 1 << 39, Ok(bytes(1 << 39, 1)), (1 << 39) - 4),
        (1, 1 << 40, Err(Refusal::Bounds), (1 << 39) - 4),
        (end / 2 - 2, 1, Ok(bytes(end / 2 + 1, end / 2 - 2)), end - 6),
        (1, 1 << 63, Err(Refusal::Bounds), end - 6),
        (1, 1, Ok(bytes(end - 1, 1)), end - 5),
        (0, 1 << 40, Ok(bytes(end, 0)), end - 5),
    ] {
        let found = slices.allocate(size, align);
        same(&rt, (found, slices.used(), align), (slice, used, align));
    }
}

#[test]
fn each_alignment_is_kept(rt: HostRuntime) {
    for k in 0..40u32 {
        let align = 1u64 << k;
        let mut slices = SlicingAllocator::over(bytes(1, (1 << 40) - 1));
        let first = slices.allocate(1, align).map(|slice| slice.first());
        same(&rt, (first, slices.used()), (Ok(align), align));
    }
}

#[test]
fn a_prefix_is_given_anew(rt: HostRuntime) {
    for (s, size, align, slice) in [
        (bytes(0, 16), 3, 1, Ok(bytes(0, 3))),
        (bytes(0, 16), 16, 8, Ok(bytes(0, 16))),
        (bytes(0, 16), 17, 1, Err(Refusal::Bounds)),
        (bytes(0, 16), 1, 3, Err(Refusal::BadAlignment)),
        (bytes(0, 16), u64::MAX, 1 << 40, Err(Refusal::Bounds)),
        (bytes(4, 16), 8, 4, Ok(bytes(4, 8))),
        (bytes(4, 16), 8, 8, Err(Refusal::Misaligned)),
    ] {
        let prefix = PrefixAllocator::over(s);
        let is_same = prefix.allocate(size, align) == prefix.allocate(size, align);
        let found = prefix.allocate(size, align);
        same(&rt, (found, is_same, align), (slice, true, align));
    }
}
