ghost use Rattle.std.specs.Prelude.{◌≡◌};
ghost use Rattle.fm_script_lines.specs.Standings.{lent, standing_as};

use crate::bound::Bound;
use fm_arena::AutoHandle;
use fm_base::ArenaId;
use fm_gate::Hold;
use fm_segment::Segment;

/// What the name that a line makes stands for.
pub enum Standing {
    /// The line makes no name, or was refused or skipped.
    Nothing,
    Arena(ArenaId),
    /// An automatic arena, and its first handle until that is given back.
    Automatic(ArenaId, Option<AutoHandle>),
    Segment(Segment),
    /// A hold, until it is given back.
    Hold(Option<Hold>),
    /// A handle, until it is given back.
    Handle(Option<AutoHandle>),
}

impl Standing {
    /// What its name is bound to.
    pub(crate) fn bound(&self) -> Bound
        ensures { standing_as result ≡ lent self.now }
    {
        match self {
            Standing::Arena(id) | Standing::Automatic(id, _) => Bound::Arena(*id),
            Standing::Segment(segment) => Bound::Segment(*segment),
            Standing::Nothing | Standing::Hold(_) | Standing::Handle(_) => Bound::Nothing,
        }
    }
}
