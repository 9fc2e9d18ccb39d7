ghost use Rattle.std.specs.Prelude.{◌≡◌, ◌↔◌, ◌<◌, ◌^◌, IfSome, IsNone, Some};
ghost use Rattle.fm_words.specs.Maps.{map_of, map_word};

/// The word that maps a page: the page's number plus 1. So it is never 0, the word where nothing is mapped.
pub fn map_word(page: u32) -> u64
    requires { page < 4096 }
    ensures word { result ≡ map_word page }
    ensures back { map_of result ≡ Some page }
{
    u64::from(page) + 1
}

/// The page that a map word maps; None exactly where the word is 0.
pub fn map_of(word: u64) -> Option<u32>
    requires { word < 2 ^ 32 }
    ensures page { result ≡ map_of word }
    ensures none { IsNone result ↔ (word ≡ 0) }
    ensures back { IfSome result (λ page. map_word page ≡ word) }
{
    (word as u32).checked_sub(1)
}
