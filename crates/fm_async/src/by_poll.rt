ghost use Rattle.std.specs.Prelude.{◌≡◌, Some};
ghost use Rattle.fm_rule_facts.specs.Views.{IsSound};
ghost use Rattle.fm_gate.specs.Needs.{CanVisit};
ghost use Rattle.fm_close.specs.Learnt.{AfterClose, CanWalk};
ghost use Rattle.fm_async.specs.Closers.{IsClosing};
ghost use Rattle.fm_async.specs.Borrows.{borrow_of};
ghost use Rattle.fm_async.specs.Ends.{Ends, VisitedAll};

use crate::borrowed::{BorrowedCloser, BorrowedFuture, Origin, PassMut};
use fm_base::{ArenaId, Refusal};
use fm_close::{Shutting, shut, sweep, visit};
use fm_rule::{Pass, Pool};
use futures::executor::block_on;
use std::alloc::AllocGlobal;
use std::marker::{Brand, PhantomData};
use std::random::RandomSource;
use std::sync::Wait;

/// Ends the arena, once nobody is under way in it, as `close` does: by a future that `block_on` polls.
///
/// Where there is no memory or no random number to poll with, it goes on by visits.
///
/// Refused, in this order: `CannotClose`, `WrongThread`, `Closed`, `Held`. A refused call changes nothing.
pub fn close_by_poll<R: Wait + RandomSource + AllocGlobal>(
    rt: &R,
    pool: &Pool,
    pass: &mut Pass,
    id: ArenaId,
) -> Result<(), Refusal>
    requires { CanVisit pool.now pass.old id }
    ensures { AfterClose pool.now pass.old pass.new id result }
{
    let close = shut(pool, pass, id)?;
    let _borrow = finish::<R, Brand>(rt, pool, PassMut { pass }, close);
    Ok(())
}

/// Polls the close until the arena has ended, and sweeps it.
fn finish<'a, R: Wait + RandomSource + AllocGlobal, O: Origin>(
    rt: &R,
    pool: &Pool,
    borrow: PassMut<'a>,
    close: Shutting,
) -> PassMut<'a>
    requires start { O.start ≡ Some (borrow_of pool.now borrow.pass close) }
    requires can { CanWalk pool.now borrow.pass.now close }
    requires is { IsClosing pool.now borrow.pass.now close }
    requires sound { IsSound borrow.pass.now }
    ensures name { result.pass.ghost_name ≡ borrow.entry.pass.ghost_name }
    ensures ends { Ends pool.now borrow.entry.pass.now result.pass.now close }
{
    let mut closer: BorrowedCloser<'_, 'a, O> = BorrowedCloser {
        pool,
        borrow,
        close,
        of: PhantomData,
    };
    // An error leaves the close where the last poll did, or where it was.
    let _ = block_on(
        rt,
        BorrowedFuture {
            closer: &mut closer,
        },
    );
    let BorrowedCloser {
        pool: _,
        borrow,
        mut close,
        of: _,
    } = closer;
    visit_all(rt, pool, borrow.pass, &mut close);
    sweep(pool, borrow.pass, close);
    borrow
}

/// Visits all marks that are left. It waits while one names the arena.
fn visit_all<R: Wait>(rt: &R, pool: &Pool, pass: &mut Pass, s: &mut Shutting)
    requires { IsClosing pool.now pass.old s.old }
    ensures { VisitedAll pool.now pass.old pass.new s.old s.new }
{
    for _ in rt.forever() {
        if s.is_ended() {
            return;
        }
        visit(pool, pass, s);
    }
    unreachable!()
}
