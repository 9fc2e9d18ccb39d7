ghost use Rattle.std.specs.Prelude.{◌≡◌, None};

use crate::closer::Closer;
use fm_base::ArenaId;
use futures::Future;
use futures::task::{Context, Poll};

/// The rest of a close. Each poll visits marks up to one that names the arena, or up to the arena's end.
#[derive(Drop)]
pub struct CloseFuture<'a, 'p> {
    closer: &'a mut Closer<'p>,
    blocker: Option<u32>,
}

impl<'a, 'p> CloseFuture<'a, 'p> {
    pub(crate) fn of(closer: &'a mut Closer<'p>) -> CloseFuture<'a, 'p>
        ensures same { result.closer.ghost_name ≡ closer.entry.ghost_name }
        ensures at { result.closer.now ≡ closer.old }
        ensures none { result.blocker ≡ None }
    {
        CloseFuture {
            closer,
            blocker: None,
        }
    }

    /// The number whose mark the last poll found to name the arena: `None` before a poll, and after one that was ready.
    pub fn blocker(&self) -> Option<u32>
        ensures { result ≡ self.now.blocker }
    {
        self.blocker
    }
}

impl<'a, 'p> Future for CloseFuture<'a, 'p> {
    ghost use Rattle.std.specs.Prelude.{⊤, true};
    ghost use Rattle.fm_base.specs.declared.arena_id.ArenaId.{ArenaId};
    ghost use Rattle.fm_async.specs.Closers.{AfterPoll, PollAnswers};
    ghost use Rattle.futures.specs.Poll.{IfReady, OnPending};
    ghost use Rattle.futures.specs.Task.{Covers, Keeps};

    /// The arena that has ended.
    type Output = ArenaId;

    ghost gives = { λ f a. a ≡ f.closer.now.shutting.arena };

    fn poll(&mut self, cx: &mut Context<'_>) -> Poll<ArenaId>
        ensures value { IfReady result (λ a. a ≡ self.old.closer.now.shutting.arena) }
        ensures again { OnPending result ⊤ }
        ensures same { OnPending result ((a : ArenaId)
            → a ≡ self.new.closer.now.shutting.arena → a ≡ self.old.closer.now.shutting.arena) }
        ensures registered { OnPending result (Covers cx.new (λ s. ⊥)) }
        ensures kept { Keeps cx.old cx.new }
        ensures polled { AfterPoll self.old.closer.now self.new.closer.now self.new.blocker }
        ensures answer { PollAnswers self.new.closer.now self.new.blocker result }
        ensures asks { OnPending result (cx.new.is_woken ≡ true) }
        ensures name { self.new.closer.ghost_name ≡ self.old.closer.ghost_name }
    {
        self.blocker = self.closer.advance();
        match self.blocker {
            None => Poll::Ready(self.closer.arena()),
            // Who leaves an arena knows of no closer, and wakes none: so it asks to be polled again.
            Some(_) => cx.yield_now(),
        }
    }
}
