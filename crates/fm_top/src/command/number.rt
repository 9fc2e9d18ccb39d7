ghost use Rattle.std.specs.Prelude.{◌≡◌, IfSome, IfNone, ℕ};
ghost use Rattle.std.specs.Fmt.{decimal};
ghost use Rattle.fm_top.specs.Words.{IsUpTo};

use fm_base_text::parse_decimal;

/// The number from 1 up to the most that a word spells.
pub fn number_up_to(word: &str, most: u64) -> Option<u64>
    ensures found { IfSome result (λ n. IsUpTo most n × (word.now ≡ decimal n)) }
    ensures none { IfNone result ((n : ℕ) → IsUpTo most n → word.now ≡ decimal n → ⊥) }
{
    let Some(n) = parse_decimal(word) else {
        return None;
    };
    if 1 <= n && n <= most { Some(n) } else { None }
}
