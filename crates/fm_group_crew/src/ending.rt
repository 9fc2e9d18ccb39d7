ghost use Rattle.std.specs.Prelude.{◌≡◌};
ghost use Rattle.fm_group_crew.specs.Ends.{ends_of, first_end};

use crate::share::CountShare;
use fm_base::Refusal;

/// The refusal of the first share that was refused, if one was.
pub(crate) fn first_end(shares: &[CountShare]) -> Result<(), Refusal>
    ensures { result ≡ first_end (ends_of shares.now) }
{
    match shares {
        [] => Ok(()),
        [first, behind @ ..] => match first.end {
            Ok(()) => first_end(behind),
            Err(refusal) => Err(refusal),
        },
    }
}
