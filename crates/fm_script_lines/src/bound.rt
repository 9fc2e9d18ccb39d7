ghost use Rattle.std.specs.Prelude.{◌≡◌};
ghost use Rattle.fm_script_lines.specs.Standings.{arena_of, segment_of, standing_as};

use crate::standing::Standing;
use fm_base::ArenaId;
use fm_segment::Segment;

/// What a name is bound to, as lines of all passes may use it. A hold or a handle is its own pass's alone.
#[derive(Clone, Copy)]
pub enum Bound {
    Nothing,
    Arena(ArenaId),
    Segment(Segment),
}

impl Bound {
    /// The arena, if it is one.
    pub fn arena(self) -> Option<ArenaId>
        ensures { result ≡ arena_of (standing_as self) }
    {
        match self {
            Bound::Arena(id) => Some(id),
            Bound::Nothing | Bound::Segment(_) => None,
        }
    }

    /// The segment, if it is one.
    pub(crate) fn segment(self) -> Option<Segment>
        ensures { result ≡ segment_of (standing_as self) }
    {
        match self {
            Bound::Segment(segment) => Some(segment),
            Bound::Nothing | Bound::Arena(_) => None,
        }
    }

    /// The same, as a name of one's own.
    pub(crate) fn standing(self) -> Standing
        ensures { result ≡ standing_as self }
    {
        match self {
            Bound::Nothing => Standing::Nothing,
            Bound::Arena(id) => Standing::Arena(id),
            Bound::Segment(segment) => Standing::Segment(segment),
        }
    }
}
