ghost use Rattle.std.specs.Prelude.{◌≡◌, ◌+◌, ◌-◌, ◌*◌, ◌%◌, ◌^◌, ◌≤◌};
ghost use Rattle.fm_base_bytes.specs.Bytes.{lane};

/// The number that the `width` bytes of `word` from byte `at` on make, the lowest first.
pub fn read(word: u64, at: u32, width: u32) -> u64
    requires width { 1 ≤ width }
    requires fits { at + width ≤ 8 }
    ensures { result ≡ lane word at width }
{
    (word >> (8 * at)) & mask(0, width)
}

/// The word whose bits are set in the `width` bytes from byte `at` on.
pub fn mask(at: u32, width: u32) -> u64
    requires width { 1 ≤ width }
    requires fits { at + width ≤ 8 }
    ensures { result ≡ (2 ^ (8 * width) - 1) * 2 ^ (8 * at) }
{
    (u64::MAX >> (64 - 8 * width)) << (8 * at)
}

/// The word with the lowest `width` bytes of `v` at the bytes from `at` on, and zeros elsewhere.
pub fn bits(at: u32, width: u32, v: u64) -> u64
    requires width { 1 ≤ width }
    requires fits { at + width ≤ 8 }
    ensures { result ≡ v % 2 ^ (8 * width) * 2 ^ (8 * at) }
{
    (v & mask(0, width)) << (8 * at)
}
