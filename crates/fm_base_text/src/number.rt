ghost use Rattle.std.specs.Prelude.{◌≡◌, ◌^◌, ◌<◌, IfSome, IfNone, ℕ, ℤ};
ghost use Rattle.std.specs.Fmt.{decimal, signed_decimal};
ghost use Rattle.std.specs.Int.Signed.{mag};

use itoa::Buffer;

/// The number that the word spells in decimal digits, with no sign and no leading zero.
pub fn parse_decimal(word: &str) -> Option<u64>
    ensures found { IfSome result (λ n. word.now ≡ decimal n) }
    ensures fits { IfSome result (λ n. n < 2 ^ 64) }
    ensures none { IfNone result ((n : ℕ) → n < 2 ^ 64 → word.now ≡ decimal n → ⊥) }
{
    match word.parse::<u64>() {
        Ok(n) if Buffer::new().format(n) == word => Some(n),
        _ => None,
    }
}

/// The number of 64 bits that the word spells, with no leading zero, no `+` and no `-0`.
pub fn parse_signed_decimal(word: &str) -> Option<i64>
    ensures found { IfSome result (λ n. word.now ≡ signed_decimal n) }
    ensures fits { IfSome result (λ n. mag n < 2 ^ 63) }
    ensures none { IfNone result ((n : ℤ) → mag n < 2 ^ 63 → word.now ≡ signed_decimal n → ⊥) }
{
    match word.parse::<i64>() {
        Ok(n) if Buffer::new().format(n) == word => Some(n),
        _ => None,
    }
}
