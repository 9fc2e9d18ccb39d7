use crate::tests::segment_calls::{Call, Part, calls, fresh};
use crate::tests::segments::{FRONT, HIGH, LOW, READ_ONLY};
use fm_base::{Kind, Refusal};
use fm_mono::Mono;

/// 24 bytes.
const THREE: Part = Part {
    at: 0,
    size: 24,
    is_read_only: false,
};

/// 0 bytes, to be read alone.
const NO_BYTES: Part = Part {
    at: 8,
    size: 0,
    is_read_only: true,
};

/// The bytes 1 to 19.
const COUNT: [u8; 19] = [
    1, 2, 3, 4, 5, 6, 7, 8, 9, 10, 11, 12, 13, 14, 15, 16, 17, 18, 19,
];

#[test]
fn bytes_are_put_compared_and_copied(rt: HostRuntime) {
    let mut m = Mono::make(rt.alloc(), 64);
    let s = fresh(&rt, &mut m, Kind::Shared, 24);
    let rows = [
        // a part differs at its end
        (Call::Mismatch(LOW, FRONT), Ok(4)),
        (Call::Mismatch(FRONT, LOW), Ok(4)),
        // whole words are put with the bytes around them
        (Call::Put(THREE, 3, COUNT.as_slice()), Ok(0)),
        (Call::Get(THREE, 0), Ok(0x0504_0302_0100_0000)),
        (Call::Get(THREE, 8), Ok(0x0d0c_0b0a_0908_0706)),
        (Call::Get(THREE, 16), Ok(0x0000_1312_1110_0f0e)),
        // bytes among others
        (Call::Fill(LOW, 1), Ok(0)),
        (Call::Put(LOW, 3, &[2, 3, 4]), Ok(0)),
        (Call::Get(LOW, 0), Ok(0x0101_0403_0201_0101)),
        (Call::Put(LOW, 6, &[2, 3, 4]), Err(Refusal::Bounds)),
        // a copy to its own next place reads before it writes
        (Call::Set(LOW, 0, 0x0000_0605_0403_0201), Ok(0)),
        (Call::Copy(LOW, 0, LOW, 1, 6), Ok(0)),
        (Call::Get(LOW, 0), Ok(0x0006_0504_0302_0101)),
    ];
    calls(&rt, &mut m, &s, &rows);
}

#[test]
fn ranges_are_refused_in_order(rt: HostRuntime) {
    let mut m = Mono::make(rt.alloc(), 64);
    let s = fresh(&rt, &mut m, Kind::Shared, 16);
    let rows = [
        (Call::Fill(READ_ONLY, 1), Err(Refusal::ReadOnly)),
        (Call::CopyFrom(READ_ONLY, HIGH), Err(Refusal::ReadOnly)),
        (Call::Copy(HIGH, 9, READ_ONLY, 0, 1), Err(Refusal::ReadOnly)),
        (Call::Copy(HIGH, 1, LOW, 0, 8), Err(Refusal::Bounds)),
        (Call::Copy(HIGH, 0, LOW, u64::MAX, 8), Err(Refusal::Bounds)),
        (Call::Mismatch(LOW, HIGH), Ok(-1)),
        (Call::Close, Ok(0)),
        (Call::Fill(LOW, 1), Err(Refusal::Closed)),
        (Call::CopyFrom(LOW, HIGH), Err(Refusal::Closed)),
        (Call::Mismatch(LOW, HIGH), Err(Refusal::Closed)),
        (Call::Fill(NO_BYTES, 1), Ok(0)),
        (Call::CopyFrom(NO_BYTES, NO_BYTES), Ok(0)),
        (Call::Mismatch(NO_BYTES, HIGH), Ok(0)),
        (Call::Mismatch(NO_BYTES, NO_BYTES), Ok(-1)),
        (Call::Copy(LOW, 9, NO_BYTES, 0, 0), Err(Refusal::Bounds)),
    ];
    calls(&rt, &mut m, &s, &rows);
}
