use crate::outcome::NoMemory;
use crate::set_future::SetFuture;
use crate::waiting::{Waiting, advance_all, count_unfinished, sweep_all};
use fm_base::{ArenaId, Refusal};
use fm_close::shut;
use fm_rule::{Pass, Pool};
use std::alloc::Global;
use std::marker::Model;

/// A pass, and the closes of several arenas that it has begun. It must be spent by `into_pass`, once it is empty.
pub struct SetCloser<'p> {
    pool: &'p Pool,
    pass: Pass,
    room: u32,
    closes: Vec<Waiting>,
}

impl<'p> Model for SetCloser<'p> {
    ghost use Rattle.std.specs.Prelude.{◌≤◌, vec_capacity};
    ghost use Rattle.fm_async.specs.Sets.{SetView, IsSetCloser, set_of};

    ghost Value = { SetView };

    ghost view = { λ c. set_of c.pool.now c.pass c.room c.closes.items };

    ghost invariant = { λ c. IsSetCloser (set_of c.pool.now c.pass c.room c.closes.items) × (c.room ≤ vec_capacity c.closes) };
}

impl<'p> SetCloser<'p> {
    ghost use Rattle.std.specs.Prelude.{◌≡◌, ◌<◌, ◌≤◌, [], false, length, slice_get, IfOk, IfErr, IfSome};
    ghost use Rattle.fm_async.specs.Sets.{AfterAdd, AfterSweepAll, CanAdd, CanBegin, IsSetCloser, closes_of, set_of, unfinished};
    ghost use Rattle.fm_async.specs.Polls.{AfterPolls};

    /// A set of no arenas yet, with room for up to 64. It takes the memory for them all; no other call takes any.
    ///
    /// Where there is no memory, the pass comes back.
    pub fn empty(
        alloc: Global,
        pool: &'p Pool,
        pass: Pass,
        room: u32,
    ) -> Result<SetCloser<'p>, NoMemory>
        requires can { CanBegin pool.now pass }
        requires some { 1 ≤ room }
        requires most { room ≤ 64 }
        ensures made { IfOk result (λ c. c ≡ set_of pool.now pass room []) }
        ensures is { IfOk result IsSetCloser }
        ensures back { IfErr result (λ e. e.pass ≡ pass) }
    {
        // Of a pass that has made no call yet, nothing else says that what it has seen is sound.
        let _caller = pass.caller();
        match Vec::with_capacity(alloc, room as usize) {
            Ok(closes) => Ok(SetCloser {
                pool,
                pass,
                room,
                closes,
            }),
            Err(_) => Err(NoMemory { pass }),
        }
    }

    /// Shuts the arena: nobody comes into it from now on. Its marks are still to be visited, from number 0.
    ///
    /// Refused, in this order: `CannotClose`, `WrongThread`, `Closed`, `Held`. A refused call leaves the set as it was.
    pub fn add(&mut self, id: ArenaId) -> Result<(), Refusal>
        requires { CanAdd self.old id }
        ensures { AfterAdd self.old self.new id result }
    {
        let close = shut(self.pool, &mut self.pass, id)?;
        self.closes.push_reserved(Waiting {
            close,
            blocker: None,
        });
        Ok(())
    }

    /// How many arenas were added and not swept.
    pub fn len(&self) -> u32
        ensures len { result ≡ length self.now.closes }
        ensures is { IsSetCloser self.now }
    {
        self.closes.len() as u32
    }

    /// How many of them haven't ended.
    pub fn unfinished(&self) -> u32
        ensures unfinished { result ≡ unfinished (closes_of self.now.closes) }
        ensures is { IsSetCloser self.now }
    {
        count_unfinished(&self.closes) as u32
    }

    /// The pool, to go on with the pass in it.
    pub fn pool(&self) -> &'p Pool
        ensures { result.now ≡ self.now.pool }
    {
        self.pool
    }

    /// Visits marks for each arena that hasn't ended, in the order of adding, up to one that names the arena, or up to
    /// the arena's end. For those that have ended, it visits none.
    ///
    /// It is what a poll of the future does: who polls by hand learns here what the closes have become.
    pub fn advance(&mut self)
        ensures { AfterPolls self.old self.new }
    {
        advance_all(self.pool, &mut self.pass, &mut self.closes);
    }

    /// The number whose mark the last poll found to name the arena that was added as the one of that index, from 0:
    /// `None` where the arena has ended, or wasn't polled yet.
    pub fn blocker(&self, i: u32) -> Option<u32>
        requires { i < length self.now.closes }
        ensures { IfSome (slice_get self.now.closes i) (λ w. result ≡ w.blocker) }
    {
        self.closes[i as usize].blocker
    }

    /// Gives back the pages and the slots of all arenas, which have ended. The set is empty then, and can be filled anew.
    pub fn sweep(&mut self)
        requires { unfinished (closes_of self.old.closes) ≡ 0 }
        ensures { AfterSweepAll self.old self.new }
    {
        sweep_all(self.pool, &mut self.pass, &mut self.closes);
    }

    /// The pass, which has no close any more.
    pub fn into_pass(self) -> Pass
        requires { self.closes ≡ [] }
        ensures same { result ≡ self.entry.pass }
        ensures free { CanBegin self.entry.pool result }
    {
        let SetCloser {
            pool: _,
            pass,
            room: _,
            closes,
        } = self;
        closes.destroy_empty();
        pass
    }

    /// The rest of the closes, to be polled. It may be dropped at any time: the closes stand here.
    pub fn future<'a>(&'a mut self) -> SetFuture<'a, 'p>
        ensures same { result.set.ghost_name ≡ self.entry.ghost_name }
        ensures at { result.set.now ≡ self.old }
        ensures polled { result.polled ≡ false }
    {
        SetFuture::of(self)
    }
}
