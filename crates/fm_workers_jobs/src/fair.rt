use crate::account::Account;
use crate::item::Item;
use crossbeam_queue::protocol::{Join, Lesson, Outcome, Protocol, Split};

/// The rule of the queue: what was pushed was taken once or is left.
pub(crate) struct Fair;

impl Protocol<Item, Account> for Fair {
    ghost use Rattle.fm_workers_jobs.specs.Accounts.{giver};
    ghost use Rattle.fm_workers_jobs.specs.Rule.{IsFair};

    ghost holds = { IsFair };

    ghost first = { giver };
}

/// An item is pushed. Whoever pushes knows at most how many items there are.
pub(crate) struct Pushing;

impl Outcome<Item, Account> for Pushing {
    ghost use Rattle.std.specs.Prelude.{◌≡◌};
    ghost use Rattle.fm_workers_jobs.specs.Accounts.{after_push};

    ghost then = { λ v item w. w ≡ after_push v item };
}

impl Lesson<Item, Account> for Pushing {
    ghost use Rattle.fm_workers_jobs.specs.Rule.{AtMostPushed};

    ghost fact = { AtMostPushed };
}

/// An item is taken. An empty queue tells nothing.
pub(crate) struct Taking;

impl Outcome<Item, Account> for Taking {
    ghost use Rattle.std.specs.Prelude.{◌≡◌};
    ghost use Rattle.fm_workers_jobs.specs.Accounts.{after_pop};

    ghost then = { λ v item w. w ≡ after_pop v item };
}

impl Lesson<Item, Account> for Taking {
    ghost use Rattle.std.specs.Prelude.{⊤};

    ghost fact = { λ v items. ⊤ };
}

/// A taker's turn is made of the giver's, and absorbed again.
pub(crate) struct Turning;

impl Split<Account> for Turning {
    ghost use Rattle.fm_workers_jobs.specs.Accounts.{after_turn, taker};

    ghost left = { after_turn };

    ghost right = { λ v. taker };
}

impl Join<Account> for Turning {
    ghost use Rattle.fm_workers_jobs.specs.Accounts.{after_absorb, spent};

    ghost both = { after_absorb };

    ghost spent = { spent };
}

/// What the giver knows of the items where no other turn is out.
pub(crate) struct Settling;

impl Lesson<Item, Account> for Settling {
    ghost use Rattle.fm_workers_jobs.specs.Rule.{AddsUp};

    ghost fact = { AddsUp };
}
