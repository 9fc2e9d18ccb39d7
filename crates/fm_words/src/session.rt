ghost use Rattle.std.specs.Prelude.{◌≡◌};
ghost use Rattle.fm_words.specs.Sessions.{IsSession, session_of, session_word};

use crate::halves::{halves, joined};
use crate::life::Life;

/// What the session word of a slot says of its arena.
///
/// | Bits | Field |
/// |---|---|
/// | 32 to 63 | `generation` |
/// | 30 and 31 | `life` |
/// | 28 and 29 | `kind` |
/// | 16 to 27 | `owner` |
/// | 0 to 15 | `holds` |
#[derive(Clone, Copy, Debug, PartialEq, Eq)]
pub struct Session {
    /// Which of the slot's arenas it is, from 0; of a free slot the next one, or the last one where no more can come.
    pub generation: u32,
    pub life: Life,
    /// The arena's kind as its number: 0 global, 1 automatic, 2 confined, 3 shared.
    pub kind: u32,
    /// The number of the caller that opened the arena, below 4,096.
    pub owner: u32,
    /// How many times the arena is held, at most 65,535. It can be shut only where this is 0.
    pub holds: u32,
}

/// The word of a session. A free session's kind, owner and holds are 0, so its word is its generation alone.
pub fn session_word(s: Session) -> u64
    requires { IsSession s }
    ensures word { result ≡ session_word s }
    ensures back { session_of result ≡ s }
{
    let low = (((((s.life.bits() << 2) | s.kind) << 12) | s.owner) << 16) | s.holds;
    joined(s.generation, low)
}

/// The session that a word is of.
pub fn session_of(word: u64) -> Session
    ensures session { result ≡ session_of word }
    ensures back { session_word result ≡ word }
{
    let (generation, rest) = halves(word);
    Session {
        generation,
        life: Life::of_bits(rest >> 30),
        kind: (rest >> 28) & 0b11,
        owner: (rest >> 16) & 0xfff,
        holds: rest & 0xffff,
    }
}
