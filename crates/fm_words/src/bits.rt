ghost use Rattle.std.specs.Prelude.{◌≡◌, ℕ, ◌<◌, ◌≤◌, IfNone, IfSome};
ghost use Rattle.std.specs.Int.{bit_at};
ghost use Rattle.fm_words.specs.Bits.{IsLowest, IsWithout, ones};

/// The word whose first `count` bits are 1, and no other.
pub fn ones(count: u32) -> u64
    requires some { 0 < count }
    requires few { count ≤ 64 }
    ensures { result ≡ ones count }
{
    u64::MAX >> (64 - count)
}

/// The number of the lowest bit that is 1, where it is below `count`; None exactly where each bit below it is 0.
pub fn lowest_bit(word: u64, count: u32) -> Option<u32>
    requires { count ≤ 64 }
    ensures some { IfSome result (λ bit. IsLowest word count bit) }
    ensures none { IfNone result ((k : ℕ) → k < count → bit_at word k ≡ 0) }
{
    let bit = word.trailing_zeros();
    if bit < count { Some(bit) } else { None }
}

/// The word, but that its bit of this number is 0.
pub fn without_bit(word: u64, bit: u32) -> u64
    requires { bit < 64 }
    ensures { IsWithout word bit result }
{
    word & !(1u64 << bit)
}
