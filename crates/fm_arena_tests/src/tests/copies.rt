ghost use Rattle.std.specs.Prelude.{◌+◌, ◌<◌, ◌≤◌};

use crate::tests::accesses::{Call, NONE, calls, zeros};
use fm_mono::Mono;
use std::alloc::Global;
use std::process::Abort;
use std::sync::Wait;

/// The byte at `place` once `n` bytes were copied, where each byte was its place before.
fn byte_after(place: u64, src: u64, dst: u64, n: u64) -> u64
    requires source { src + n ≤ 24 }
    requires target { dst + n ≤ 24 }
{
    if dst <= place && place < dst + n {
        place - dst + src
    } else {
        place
    }
}

/// Copies so many of 24 bytes, of which each was its place before.
fn copy_inside<R: Abort + Wait>(rt: &R, alloc: Global, src: u64, dst: u64, n: u64)
    requires source { src + n ≤ 24 }
    requires target { dst + n ≤ 24 }
{
    let mut m = Mono::make(alloc, 48);
    let a = zeros(rt, &mut m);
    let rows = [
        (Call::Put(0, 8, 0x0706_0504_0302_0100), Ok(0)),
        (Call::Put(8, 8, 0x0f0e_0d0c_0b0a_0908), Ok(0)),
        (Call::Put(16, 8, 0x1716_1514_1312_1110), Ok(0)),
        (Call::Copy(src, dst, n), Ok(0)),
    ];
    calls(rt, &mut m, a, &rows);
    for place in 0..24 {
        let byte = byte_after(place, src, dst, n);
        calls(rt, &mut m, a, &[(Call::Get(place, 1), Ok(byte))]);
    }
}

#[test]
fn copies_of_every_overlap(rt: HostRuntime) {
    for src in 0..13 {
        for dst in 0..13 {
            for n in 0..12 {
                copy_inside(&rt, rt.alloc(), src, dst, n);
            }
        }
    }
}

/// Compares 11 zeros with 11 bytes of which that at `offset` is 1, if it is one of them.
fn compare<R: Abort + Wait>(rt: &R, alloc: Global, first: u64, second: u64, offset: u64)
    requires second { second < 9 }
    requires offset { offset < 12 }
{
    let mut m = Mono::make(alloc, 48);
    let a = zeros(rt, &mut m);
    let found = if offset < 11 { offset } else { NONE };
    let rows = [
        (Call::Put(24 + second + offset, 1, 1), Ok(0)),
        (Call::Mismatch(first, 24 + second, 11), Ok(found)),
    ];
    calls(rt, &mut m, a, &rows);
}

#[test]
fn the_first_byte_that_differs(rt: HostRuntime) {
    for first in 0..9 {
        for second in 0..9 {
            for offset in 0..12 {
                compare(&rt, rt.alloc(), first, second, offset);
            }
        }
    }
}
