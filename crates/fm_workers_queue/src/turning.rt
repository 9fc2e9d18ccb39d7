ghost use Rattle.fm_workers_queue.specs.Accounts.{after_absorb, after_turn, user};
ghost use Rattle.fm_workers_queue.specs.Turns.{account_of, HasAccount, IsOwner, IsUser};

use crate::fair::Turning;
use crate::promise::Promise;
use crate::queue::{Queue, Turn};

impl<T: Drop, P: Promise<T>> Queue<T, P> {
    /// A turn for another thread. The owner has to absorb it before the account is settled.
    pub fn another(&self, turn: &mut Turn<T>) -> Turn<T>
        requires { IsOwner self.now turn.old }
        ensures owner { HasAccount self.now turn.new (after_turn (account_of turn.old)) }
        ensures user { HasAccount self.now result user }
    {
        self.jobs.another::<Turning>(turn)
    }

    /// Takes a turn back: the owner's account now has what that one pushed and took.
    pub fn absorb(&self, turn: &mut Turn<T>, other: Turn<T>)
        requires owner { IsOwner self.now turn.old }
        requires user { IsUser self.now other }
        ensures { HasAccount self.now turn.new (after_absorb (account_of turn.old) (account_of other)) }
    {
        self.jobs.absorb::<Turning>(turn, other);
    }
}
