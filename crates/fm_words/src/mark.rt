ghost use Rattle.std.specs.Prelude.{◌≡◌, ◌↔◌, ◌<◌, ◌^◌, IfSome, IsNone, Some};
ghost use Rattle.fm_words.specs.Marks.{mark_of, mark_word};

use crate::halves::{halves, joined};

/// The word by which a pass publishes the arena that it is about to use: slot plus 1 above the generation. So it is
/// never 0, the word of a pass that publishes nothing.
pub fn mark_word(slot: u32, generation: u32) -> u64
    requires { slot < 64 }
    ensures word { result ≡ mark_word slot generation }
    ensures back { mark_of result ≡ Some (slot, generation) }
{
    joined(slot + 1, generation)
}

/// The slot and generation that a mark word names; None exactly where its high 32 bits are 0.
pub fn mark_of(word: u64) -> Option<(u32, u32)>
    ensures mark { result ≡ mark_of word }
    ensures none { IsNone result ↔ (word < 2 ^ 32) }
    ensures back { IfSome result (λ m. mark_word m.0 m.1 ≡ word) }
{
    let (high, low) = halves(word);
    let slot = high.checked_sub(1)?;
    Some((slot, low))
}
