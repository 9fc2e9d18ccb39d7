use fm_base::{ArenaId, Kind};
use fm_io::Files;
use fm_segment::Segment;
use fm_text::SlicingAllocator;
use fm_top_load::load;
use std::alloc::Global;
use std::sync::Wait;

/// The bytes of a record.
const SIZE: u64 = 32;

/// The bytes of a record that stand before those with its text.
const AT: u64 = 4;

/// The bytes that a record has for its text.
const ROOM: u64 = 20;

/// Gets the text of each record of a file so often, and answers how many bytes they have in all; none where one has none.
pub fn texts<R: Wait, F: Files>(
    rt: &R,
    alloc: Global,
    files: &mut F,
    turns: u64,
    file: &str,
) -> Option<u64> {
    let mut loaded = load(rt, alloc, files, file, SIZE).ok()?;
    let mut sum: u64 = 0;
    for _ in 0..turns {
        for k in 0..loaded.len() / SIZE {
            let text = loaded.text(alloc, k * SIZE + AT, ROOM).ok()?;
            sum = sum.wrapping_add(text.len() as u64);
        }
    }
    Some(sum)
}

/// Cuts so many slices off 2^40 bytes, and answers the sum of the places where they begin; none where they pass the end.
pub fn slices(count: u64) -> Option<u64> {
    let arena = ArenaId {
        slot: 0,
        generation: 0,
        kind: Kind::Confined,
        owner: 0,
        term: 0,
    };
    let mut slices = SlicingAllocator::over(Segment::of(arena, 0, 1 << 40));
    let mut sum: u64 = 0;
    for turn in 0..count {
        let slice = slices.allocate(turn % 8, 1 << (turn % 4)).ok()?;
        sum = sum.wrapping_add(slice.first());
    }
    Some(sum)
}
