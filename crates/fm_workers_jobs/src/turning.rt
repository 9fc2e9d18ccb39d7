ghost use Rattle.fm_workers_jobs.specs.Accounts.{after_absorb, after_turn, taker};
ghost use Rattle.fm_workers_jobs.specs.Turns.{account_of, HasAccount, IsGiver, IsTaker};

use crate::fair::Turning;
use crate::jobs::{Jobs, Turn};

impl Jobs {
    /// A taker's turn. The giver has to absorb it before the account is settled.
    pub fn another(&self, turn: &mut Turn) -> Turn
        requires { IsGiver self.now turn.old }
        ensures giver { HasAccount self.now turn.new (after_turn (account_of turn.old)) }
        ensures taker { HasAccount self.now result taker }
    {
        self.queue.another::<Turning>(turn)
    }

    /// Takes a taker's turn back: the giver's account now has what that one took.
    pub fn absorb(&self, turn: &mut Turn, other: Turn)
        requires giver { IsGiver self.now turn.old }
        requires taker { IsTaker self.now other }
        ensures { HasAccount self.now turn.new (after_absorb (account_of turn.old) (account_of other)) }
    {
        self.queue.absorb::<Turning>(turn, other);
    }
}
