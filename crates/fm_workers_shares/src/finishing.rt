ghost use Rattle.std.specs.Prelude.{◌≡◌};
ghost use Rattle.std.specs.List.{AllByRecursion};
ghost use Rattle.fm_workers_jobs.specs.Turns.{account_of, HasAccount, IsGiver, IsTaker};
ghost use Rattle.fm_workers_shares.specs.Finishing.{CanFinish, Finishes};
ghost use Rattle.fm_workers_shares.specs.Placing.{AreJoined, absorbed, end_of, parts_of, turns_of};

use crate::taker::Taker;
use fm_base::Refusal;
use fm_workers_jobs::{Jobs, Turn};

/// What the parts of takers are joined to.
pub trait Whole<P> {
    /// What it becomes by a part.
    ghost joins: { Self → P → Self → Type 0 };

    /// Joins a part with it, which is what the parts behind that one came to.
    fn join(&mut self, part: P)
        ensures { joins self.old part self.new };
}

/// Joins what the takers made of their shares, once they have ended, to the whole.
///
/// Refused: as the first taker was that was refused. Then nothing is joined.
pub fn finish<P: Drop, W: Whole<P>>(
    jobs: &Jobs,
    mut giver: Turn,
    takers: Vec<Taker<P>>,
    whole: &mut W,
) -> Result<(), Refusal>
    requires { CanFinish jobs.now giver takers.items }
    ensures { Finishes W.joins (account_of giver) takers.items whole.old whole.new result }
{
    first_end(takers.as_slice())?;
    join_parts(jobs, &mut giver, takers, whole);
    jobs.settle(&mut giver);
    Ok(())
}

/// The refusal of the first taker that was refused, if one was.
fn first_end<P>(takers: &[Taker<P>]) -> Result<(), Refusal>
    ensures { result ≡ end_of takers.now }
{
    match takers {
        [] => Ok(()),
        [first, behind @ ..] => match first.end {
            Ok(()) => first_end(behind),
            Err(refusal) => Err(refusal),
        },
    }
}

/// Takes all turns back, and joins the parts, the last taker's first.
fn join_parts<P: Drop, W: Whole<P>>(
    jobs: &Jobs,
    giver: &mut Turn,
    mut takers: Vec<Taker<P>>,
    whole: &mut W,
)
    requires giver { IsGiver jobs.now giver.old }
    requires takers { AllByRecursion (λ t. IsTaker jobs.now t.turn) takers.items }
    ensures account { HasAccount jobs.now giver.new
        (absorbed (account_of giver.old) (turns_of takers.items)) }
    ensures joined { AreJoined W.joins whole.old (parts_of takers.items) whole.new }
{
    while let Some(taker) = takers.pop() {
        let Taker {
            number: _,
            turn,
            part,
            end: _,
        } = taker;
        jobs.absorb(giver, turn);
        whole.join(part);
    }
}
