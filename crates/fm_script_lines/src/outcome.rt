use crate::reply::Reply;
use crate::standing::Standing;

/// What a line came to: its reply, and what the name that it makes stands for.
pub struct LineOutcome {
    pub reply: Reply,
    pub made: Standing,
}

impl LineOutcome {
    ghost use Rattle.std.specs.Prelude.{◌≡◌};
    ghost use Rattle.fm_script_lines.specs.Outcomes.{plain};

    /// This reply, of a line whose name stands for nothing.
    pub(crate) fn plain(reply: Reply) -> LineOutcome
        ensures { result ≡ plain reply }
    {
        LineOutcome {
            reply,
            made: Standing::Nothing,
        }
    }
}
