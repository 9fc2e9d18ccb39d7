ghost use Rattle.std.specs.Prelude.{◌≡◌, ◌+◌, ◌≤◌, None};
ghost use Rattle.fm_segment_access.specs.Learnt.{CanTouch};

use crate::tests::compared::same;
use fm_base::{ArenaId, Kind, Memory, Refusal};
use fm_mono::Mono;
use fm_segment_access::{fill, get_number, put_number};
use fm_segment_copies::{copy_range, mismatch_range};
use std::process::Abort;
use std::sync::Wait;

/// A call on the first 48 bytes of an arena, by places.
#[derive(Clone, Copy)]
pub(super) enum Call {
    /// The number of so many bytes.
    Get(u64, u32),
    Put(u64, u32, u64),
    /// So many bytes, each made this one.
    Fill(u64, u64, u8),
    /// From the first place to the second, so many bytes.
    Copy(u64, u64, u64),
    Mismatch(u64, u64, u64),
    Close,
}

/// What a comparison answers where no byte differs.
pub(super) const NONE: u64 = u64::MAX;

/// An arena with 48 bytes, all zeros.
pub(super) fn zeros<R: Abort + Wait, M: Memory>(rt: &R, m: &mut M) -> ArenaId
    requires { (M.view m.old).inside ≡ None }
    ensures { CanTouch (M.view m.new) result 0 48 }
{
    let a = m.open_arena(rt, Kind::Shared).expect(rt, "an arena");
    same(rt, m.allocate(rt, a, 48, 8), Ok(0));
    a
}

/// Stops where the bytes don't lie in the first 48.
fn lies<R: Abort>(rt: &R, place: u64, n: u64)
    ensures { place + n ≤ 48 }
{
    assert!(rt; n <= 48 && place <= 48 - n);
}

/// The number that was got, the first byte that differs, or 0 where there is nothing to answer.
fn answer<R: Abort + Wait, M: Memory>(
    rt: &R,
    m: &mut M,
    a: ArenaId,
    call: Call,
) -> Result<u64, Refusal>
    requires { CanTouch (M.view m.old) a 0 48 }
    ensures { CanTouch (M.view m.new) a 0 48 }
{
    match call {
        Call::Get(place, width) => {
            lies(rt, place, u64::from(width));
            assert!(rt; 1 <= width && width <= 8);
            get_number(m, a, place, width)
        }
        Call::Put(place, width, number) => {
            lies(rt, place, u64::from(width));
            assert!(rt; 1 <= width && width <= 8);
            put_number(rt, m, a, place, width, number).and(Ok(0))
        }
        Call::Fill(place, n, byte) => {
            lies(rt, place, n);
            fill(rt, m, a, place, n, byte).and(Ok(0))
        }
        Call::Copy(from, to, n) => {
            lies(rt, from, n);
            lies(rt, to, n);
            copy_range(rt, m, a, from, a, to, n).and(Ok(0))
        }
        Call::Mismatch(one, other, n) => {
            lies(rt, one, n);
            lies(rt, other, n);
            let found = mismatch_range(m, a, one, a, other, n)?;
            Ok(found.unwrap_or(NONE))
        }
        Call::Close => m.close(rt, a).and(Ok(0)),
    }
}

/// Stops where one of the calls isn't answered so.
pub(super) fn calls<R: Abort + Wait, M: Memory>(
    rt: &R,
    m: &mut M,
    a: ArenaId,
    rows: &[(Call, Result<u64, Refusal>)],
)
    requires { CanTouch (M.view m.old) a 0 48 }
    ensures { CanTouch (M.view m.new) a 0 48 }
{
    for (k, row) in rows.iter().enumerate() {
        let (call, wanted) = *row;
        same(rt, (k, answer(rt, m, a, call)), (k, wanted));
    }
}

/// The byte at `at`, where the bytes 1, 2, 3 .. were put at `place` and all others are 255.
fn byte_at(at: u64, place: u64, width: u64) -> u64
    requires { place + width ≤ 24 }
{
    if at >= place && at < place + width {
        at - place + 1
    } else {
        255
    }
}

/// A number of the bytes 1, 2, 3 .. is put among ones, and it and every byte are read again.
fn put_among_ones<R: Abort + Wait, M: Memory>(
    rt: &R,
    m: &mut M,
    a: ArenaId,
    place: u64,
    width: u32,
    number: u64,
)
    requires words { CanTouch (M.view m.old) a 0 48 }
    requires within { place + width ≤ 24 }
    ensures { CanTouch (M.view m.new) a 0 48 }
{
    let rows = [
        (Call::Put(0, 8, u64::MAX), Ok(0)),
        (Call::Put(8, 8, u64::MAX), Ok(0)),
        (Call::Put(16, 8, u64::MAX), Ok(0)),
        (Call::Put(place, width, number), Ok(0)),
        (Call::Get(place, width), Ok(number)),
    ];
    calls(rt, m, a, &rows);
    for at in 0..24u64 {
        let byte = byte_at(at, place, u64::from(width));
        calls(rt, m, a, &[(Call::Get(at, 1), Ok(byte))]);
    }
}

/// At each place from a word's start to the next word's.
#[test]
fn numbers_at_each_place(rt: HostRuntime) {
    let mut m = Mono::make(rt.alloc(), 64);
    let a = zeros(&rt, &mut m);
    for place in 0..9u64 {
        put_among_ones(&rt, &mut m, a, place, 1, 0x01);
        put_among_ones(&rt, &mut m, a, place, 2, 0x0201);
        put_among_ones(&rt, &mut m, a, place, 4, 0x0403_0201);
        put_among_ones(&rt, &mut m, a, place, 8, 0x0807_0605_0403_0201);
    }
}

#[test]
fn a_fill_changes_just_its_bytes(rt: HostRuntime) {
    let mut m = Mono::make(rt.alloc(), 64);
    let a = zeros(&rt, &mut m);
    let rows = [
        (Call::Fill(3, 14, 7), Ok(0)),
        (Call::Get(0, 8), Ok(0x0707_0707_0700_0000)),
        (Call::Get(8, 8), Ok(0x0707_0707_0707_0707)),
        (Call::Get(16, 8), Ok(7)),
        (Call::Fill(5, 0, 9), Ok(0)),
        (Call::Get(5, 1), Ok(7)),
    ];
    calls(&rt, &mut m, a, &rows);
}

#[test]
fn a_closed_arena_is_refused(rt: HostRuntime) {
    let mut m = Mono::make(rt.alloc(), 64);
    let a = zeros(&rt, &mut m);
    let refused = Err(Refusal::Closed);
    let rows = [
        (Call::Put(6, 4, 0x0403_0201), Ok(0)),
        (Call::Get(4, 4), Ok(0x0201_0000)),
        (Call::Close, Ok(0)),
        (Call::Get(6, 4), refused),
        (Call::Put(6, 4, 0), refused),
        (Call::Fill(6, 4, 0), refused),
        (Call::Copy(0, 9, 5), refused),
        (Call::Mismatch(0, 9, 5), refused),
        (Call::Copy(0, 9, 0), Ok(0)),
        (Call::Mismatch(0, 9, 0), Ok(NONE)),
    ];
    calls(&rt, &mut m, a, &rows);
}
