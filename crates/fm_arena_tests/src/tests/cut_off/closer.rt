ghost use Rattle.std.specs.Prelude.{◌≤◌, ◌<◌, ◌*◌};
ghost use Rattle.fm_rule_facts.specs.Views.{given_of};
ghost use Rattle.fm_rule_calls.specs.Kept.{Lasts};
ghost use Rattle.fm_gate.specs.Needs.{CanVisit, IsOutside};
ghost use Rattle.fm_close.specs.Learnt.{CanWalk};
ghost use Rattle.fm_arena_tests.specs.Closers.{IsOnItsWay, StandsAt};

use crate::tests::compared::same;
use fm_arena_braided::Turn;
use fm_base::{ArenaId, Refusal};
use fm_close::{Shutting, Visit, shut, sweep, visit};
use fm_gate::{enter, leave, load};
use fm_rule::{Pass, Pool};
use std::marker::Model;
use std::mem::replace;
use std::process::Abort;

/// What a closer found at its turn: the arena's first three words, and what the visits answered.
#[derive(Clone, Copy, Debug, PartialEq, Eq)]
pub(crate) struct Walk {
    words: [u64; 3],
    nexts: u32,
    last: Option<Visit>,
}

impl Walk {
    /// Past the mark of one pass, and then this.
    pub(crate) fn to(last: Visit, words: [u64; 3]) -> Walk {
        Walk {
            words,
            nexts: 1,
            last: Some(last),
        }
    }
}

/// Shuts an arena at the turn of one number, by a pass of its own, and visits marks until one names the arena or it has
/// ended.
pub(crate) struct Closer<'a> {
    pool: &'a Pool,
    pass: Pass,
    arena: ArenaId,
    at: u64,
    shutting: Option<Shutting>,
    walk: Walk,
}

impl<'a> Model for Closer<'a> {
    ghost Value = { Unit };

    ghost view = { λ c. tt };

    ghost invariant = { λ c. StandsAt c.pool.now c.pass c.arena c.shutting × (24 ≤ given_of c.pass c.arena) };
}

impl<'a> Closer<'a> {
    /// It comes at the turn `at`.
    pub(crate) fn new(pool: &'a Pool, pass: Pass, arena: ArenaId, at: u64) -> Closer<'a>
        requires can { CanVisit pool.now pass arena }
        requires given { 24 ≤ given_of pass arena }
    {
        Closer {
            pool,
            pass,
            arena,
            at,
            shutting: None,
            walk: Walk {
                words: [0, 0, 0],
                nexts: 0,
                last: None,
            },
        }
    }

    /// Shuts the arena, where that wasn't done yet.
    fn begin(&mut self) {
        if self.shutting.is_some() {
            return;
        }
        let words = words_of(self.pool, &mut self.pass, self.arena);
        if let Ok(mut s) = shut(self.pool, &mut self.pass, self.arena) {
            let (nexts, last) = walk_once(self.pool, &mut self.pass, &mut s);
            self.walk = Walk { words, nexts, last };
            // There was none; a close that is under way can't be dropped.
            if let Some(other) = replace(&mut self.shutting, Some(s)) {
                sweep(self.pool, &mut self.pass, other);
            }
        }
    }

    /// Closes the arena. What it found at its turn is wanted so; a walk that stood at a mark ends at the next visit.
    pub(crate) fn finish<R: Abort>(self, rt: &R, wanted: Walk) {
        let Closer {
            pool,
            mut pass,
            arena: _,
            at,
            shutting,
            walk,
        } = self;
        let mut s = shutting.expect(rt, "a turn");
        if !s.is_ended() {
            same(rt, visit(pool, &mut pass, &mut s), Visit::Ended);
        }
        sweep(pool, &mut pass, s);
        same(rt, (walk, at), (wanted, at));
    }
}

impl<'a> Turn for Closer<'a> {
    ghost turns = { λ old at new. Unit };

    fn turn(&mut self, at: u64) {
        if at == self.at {
            self.begin();
        }
    }
}

/// A word of the arena, in a visit of its own.
fn word_of(pool: &Pool, pass: &mut Pass, a: ArenaId, word: u64) -> Result<u64, Refusal>
    requires can { CanVisit pool.now pass.old a }
    requires within { 8 * word < given_of pass.old a }
    ensures outside { IsOutside pool.now pass.new }
    ensures lasts { Lasts pass.old pass.new }
{
    enter(pool, pass, a)?;
    let found = load(pool, pass, word);
    leave(pool, pass);
    Ok(found)
}

/// The arena's first three words, or zeros where it is closed.
fn words_of(pool: &Pool, pass: &mut Pass, a: ArenaId) -> [u64; 3]
    requires can { CanVisit pool.now pass.old a }
    requires given { 24 ≤ given_of pass.old a }
    ensures outside { IsOutside pool.now pass.new }
    ensures lasts { Lasts pass.old pass.new }
{
    let first = word_of(pool, pass, a, 0).unwrap_or(0);
    let second = word_of(pool, pass, a, 1).unwrap_or(0);
    let third = word_of(pool, pass, a, 2).unwrap_or(0);
    [first, second, third]
}

/// Visits the marks of both passes, as long as they don't name the arena: how many didn't, and what the last visit
/// answered else.
fn walk_once(pool: &Pool, pass: &mut Pass, s: &mut Shutting) -> (u32, Option<Visit>)
    requires { CanWalk pool.now pass.old s.old }
    ensures outside { IsOutside pool.now pass.new }
    ensures on { IsOnItsWay pass.new s.new.ended s.new }
    ensures lasts { Lasts pass.old pass.new }
{
    match visit(pool, pass, s) {
        Visit::Next => match visit(pool, pass, s) {
            Visit::Next => (2, None),
            found => (1, Some(found)),
        },
        found => (0, Some(found)),
    }
}
