ghost use Rattle.std.specs.Prelude.{◌≡◌, ◌<◌, false, length, slice_get, IfSome, None, if◌then◌else◌};

use crate::set::SetCloser;
use futures::Future;
use futures::task::{Context, Poll};

/// The rest of the closes of a set. Each poll visits marks for each arena that hasn't ended, in the order of adding.
///
/// A poll is ready once all have ended. A pending one promises that each arena that hasn't ended was blocked: a mark
/// that this poll loaded names it. It doesn't promise that the mark still does, nor that anybody wakes the future: it
/// asks to be polled again.
#[derive(Drop)]
pub struct SetFuture<'a, 'p> {
    set: &'a mut SetCloser<'p>,
    polled: bool,
}

impl<'a, 'p> SetFuture<'a, 'p> {
    pub(crate) fn of(set: &'a mut SetCloser<'p>) -> SetFuture<'a, 'p>
        ensures same { result.set.ghost_name ≡ set.entry.ghost_name }
        ensures at { result.set.now ≡ set.old }
        ensures polled { result.polled ≡ false }
    {
        SetFuture { set, polled: false }
    }

    /// How many arenas the set has, ended ones too.
    pub fn len(&self) -> u32
        ensures { result ≡ length self.now.set.now.closes }
    {
        self.set.len()
    }

    /// The number whose mark the last poll found to name the arena of that index, from 0, in the order of adding: `None`
    /// where the arena has ended, and before a poll.
    pub fn blocker(&self, i: u32) -> Option<u32>
        requires { i < length self.now.set.now.closes }
        ensures { IfSome (slice_get self.now.set.now.closes i)
            (λ w. result ≡ (if self.now.polled then w.blocker else None)) }
    {
        if self.polled {
            self.set.blocker(i)
        } else {
            None
        }
    }
}

impl<'a, 'p> Future for SetFuture<'a, 'p> {
    ghost use Rattle.std.specs.Prelude.{⊤, ℕ, true};
    ghost use Rattle.fm_async.specs.Polls.{AfterPolls, SetAnswers, StayAsMany};
    ghost use Rattle.futures.specs.Poll.{IfReady, OnPending};
    ghost use Rattle.futures.specs.Task.{Covers, Keeps};

    /// How many arenas there are, which have all ended.
    type Output = u32;

    ghost gives = { λ f n. n ≡ length f.set.now.closes };

    fn poll(&mut self, cx: &mut Context<'_>) -> Poll<u32>
        ensures value { IfReady result (λ n. n ≡ length self.old.set.now.closes) }
        ensures again { OnPending result ⊤ }
        ensures same { OnPending result (StayAsMany self.old.set.now self.new.set.now) }
        ensures registered { OnPending result (Covers cx.new (λ s. ⊥)) }
        ensures kept { Keeps cx.old cx.new }
        ensures polls { AfterPolls self.old.set.now self.new.set.now }
        ensures answer { SetAnswers self.new.set.now result }
        ensures asks { OnPending result (cx.new.is_woken ≡ true) }
        ensures polled { self.new.polled ≡ true }
        ensures name { self.new.set.ghost_name ≡ self.old.set.ghost_name }
    {
        self.set.advance();
        self.polled = true;
        if self.set.unfinished() == 0 {
            Poll::Ready(self.set.len())
        } else {
            // Who leaves an arena knows of no closer, and wakes none: so it asks to be polled again.
            cx.yield_now()
        }
    }
}
