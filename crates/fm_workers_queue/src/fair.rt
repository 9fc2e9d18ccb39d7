use crate::account::Account;
use crate::promise::Promise;
use crossbeam_queue::protocol::{Join, Lesson, Outcome, Protocol, Split};
use std::marker::PhantomData;

/// The rule of the queue: what was pushed was taken once or is left, and what is left keeps its promise.
pub(crate) struct Fair<P> {
    of: PhantomData<P>,
}

impl<T, P: Promise<T>> Protocol<T, Account<T>> for Fair<P> {
    ghost use Rattle.fm_workers_queue.specs.Accounts.{owner};
    ghost use Rattle.fm_workers_queue.specs.Rule.{IsFair};

    ghost holds = { IsFair P.promises };

    ghost first = { owner };
}

/// A job is pushed.
pub(crate) struct Pushing;

impl<T> Outcome<T, Account<T>> for Pushing {
    ghost use Rattle.std.specs.Prelude.{◌≡◌};
    ghost use Rattle.fm_workers_queue.specs.Accounts.{after_push};

    ghost then = { λ v job w. w ≡ after_push v job };
}

impl<T> Lesson<T, Account<T>> for Pushing {
    ghost use Rattle.std.specs.Prelude.{⊤};

    ghost fact = { λ v items. ⊤ };
}

/// A job is taken, and keeps its promise. An empty queue tells nothing.
pub(crate) struct Taking<P> {
    of: PhantomData<P>,
}

impl<T, P: Promise<T>> Outcome<T, Account<T>> for Taking<P> {
    ghost use Rattle.std.specs.Prelude.{◌≡◌};
    ghost use Rattle.fm_workers_queue.specs.Accounts.{after_take};

    ghost then = { λ v job w. (w ≡ after_take v job) × P.promises job };
}

impl<T, P: Promise<T>> Lesson<T, Account<T>> for Taking<P> {
    ghost use Rattle.std.specs.Prelude.{⊤};

    ghost fact = { λ v items. ⊤ };
}

/// A user's turn is made of the owner's, and absorbed again.
pub(crate) struct Turning;

impl<T> Split<Account<T>> for Turning {
    ghost use Rattle.fm_workers_queue.specs.Accounts.{after_turn, user};

    ghost left = { after_turn };

    ghost right = { λ v. user };
}

impl<T> Join<Account<T>> for Turning {
    ghost use Rattle.fm_workers_queue.specs.Accounts.{after_absorb, spent};

    ghost both = { after_absorb };

    ghost spent = { spent };
}

/// What the owner knows of the jobs where no other turn is out.
pub(crate) struct Settling;

impl<T> Lesson<T, Account<T>> for Settling {
    ghost use Rattle.fm_workers_queue.specs.Rule.{AddsUp};

    ghost fact = { AddsUp };
}
