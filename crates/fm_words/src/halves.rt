ghost use Rattle.std.specs.Prelude.{◌≡◌, ◌+◌, ◌*◌, ◌/◌, ◌%◌, ◌^◌};

/// The word with these high and low 32 bits.
pub(crate) fn joined(high: u32, low: u32) -> u64
    ensures { result ≡ high * 2 ^ 32 + low }
{
    (u64::from(high) << 32) | u64::from(low)
}

/// The high and the low 32 bits of a word.
pub(crate) fn halves(word: u64) -> (u32, u32)
    ensures high { result.0 ≡ word / 2 ^ 32 }
    ensures low { result.1 ≡ word % 2 ^ 32 }
{
    ((word >> 32) as u32, (word & 0xffff_ffff) as u32)
}
