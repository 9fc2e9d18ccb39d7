use crate::advancing::advance;
use crate::future::CloseFuture;
use crate::outcome::Start;
use fm_base::ArenaId;
use fm_close::{Shutting, Visit, shut, sweep, visit};
use fm_rule::{Pass, Pool};
use std::marker::Model;

/// A pass, and the close of an arena that it has begun. It must be spent by `sweep`, once the arena has ended.
pub struct Closer<'p> {
    pool: &'p Pool,
    pass: Pass,
    close: Shutting,
}

impl<'p> Model for Closer<'p> {
    ghost use Rattle.fm_async.specs.Closers.{CloserView, IsClosing};

    ghost Value = { CloserView };

    ghost view = { λ c. record { pool = c.pool.now; pass = c.pass; shutting = c.close } };

    ghost invariant = { λ c. IsClosing c.pool.now c.pass c.close };
}

impl<'p> Closer<'p> {
    ghost use Rattle.std.specs.Prelude.{◌≡◌, true, false};
    ghost use Rattle.fm_gate.specs.Needs.{CanVisit};
    ghost use Rattle.fm_close.specs.Learnt.{AfterSweep};
    ghost use Rattle.fm_async.specs.Closers.{AfterPoll, AfterStep, IsCloser};
    ghost use Rattle.fm_async.specs.Starts.{AfterStart};

    /// Shuts the arena: nobody comes into it from now on. Its marks are still to be visited, from number 0.
    ///
    /// Refused, in this order: `CannotClose`, `WrongThread`, `Closed`, `Held`. A refused call changes nothing.
    pub fn start(pool: &'p Pool, pass: Pass, id: ArenaId) -> Start<'p>
        requires { CanVisit pool.now pass id }
        ensures { AfterStart pool.now pass id result }
    {
        let mut pass = pass;
        match shut(pool, &mut pass, id) {
            Ok(close) => Start::Begun(Closer { pool, pass, close }),
            Err(refusal) => Start::Refused(pass, refusal),
        }
    }

    /// Looks at the next mark. Where it names the arena, it stays the next one.
    pub fn step(&mut self) -> Visit
        requires { self.old.shutting.ended ≡ false }
        ensures { AfterStep self.old self.new result }
    {
        visit(self.pool, &mut self.pass, &mut self.close)
    }

    /// Visits marks up to one that names the arena, and answers its number, or up to the arena's end. Where the arena has
    /// ended, it visits none.
    ///
    /// It is what a poll of the future does: who polls by hand learns here what the close has become.
    pub fn advance(&mut self) -> Option<u32>
        ensures { AfterPoll self.old self.new result }
    {
        if self.close.is_ended() {
            return None;
        }
        advance(self.pool, &mut self.pass, &mut self.close)
    }

    /// Whether the last mark was visited, and the arena has ended.
    pub fn is_ended(&self) -> bool
        ensures ended { result ≡ self.now.shutting.ended }
        ensures is { IsCloser self.now }
    {
        self.close.is_ended()
    }

    /// The arena that was shut.
    pub fn arena(&self) -> ArenaId
        ensures { result ≡ self.now.shutting.arena }
    {
        self.close.arena()
    }

    /// The pool, to go on with the pass in it.
    pub fn pool(&self) -> &'p Pool
        ensures { result.now ≡ self.now.pool }
    {
        self.pool
    }

    /// Gives back the pages and the slot of the arena, which has ended, and answers the pass.
    pub fn sweep(self) -> Pass
        requires { self.shutting.ended ≡ true }
        ensures { AfterSweep self.entry.pool self.entry.pass result self.entry.shutting.arena }
    {
        let Closer {
            pool,
            mut pass,
            close,
        } = self;
        sweep(pool, &mut pass, close);
        pass
    }

    /// The rest of the close, to be polled. It may be dropped at any time: the close stands here.
    pub fn future<'a>(&'a mut self) -> CloseFuture<'a, 'p>
        ensures same { result.closer.ghost_name ≡ self.entry.ghost_name }
        ensures at { result.closer.now ≡ self.old }
    {
        CloseFuture::of(self)
    }
}
