ghost use Rattle.std.specs.Prelude.{◌≡◌, ◌≤◌, ◌+◌, length};
ghost use Rattle.fm_rule_calls.specs.Kept.{Lasts};
ghost use Rattle.fm_async.specs.Sets.{CanAdd};

use crate::tests::pools::{drawn, new_set, opened_beside, wide_pool};
use crate::tests::same;
use crate::tests::sets::swept;
use fm_async::SetCloser;
use fm_base::{ArenaId, Kind, Refusal};
use fm_close::close;
use fm_gate::{hold, unhold};
use std::alloc::AllocGlobal;
use std::process::Abort;
use std::sync::Wait;

/// An arena is to be added, with this answer. A refused one leaves the set as long as it was.
fn tried<R: Abort>(rt: &R, set: &mut SetCloser<'_>, id: ArenaId, wanted: Result<(), Refusal>)
    requires { CanAdd set.old id }
    ensures most { length set.new.closes ≤ length set.old.closes + 1 }
    ensures room { set.new.room ≡ set.old.room }
    ensures lasts { Lasts set.old.pass set.new.pass }
{
    let before = set.len();
    let found = set.add(id);
    let more = u32::from(found.is_ok());
    same(rt, set.len(), before.wrapping_add(more));
    same(rt, found, wanted);
}

/// Arenas that are closed, held and another pass's own are refused, between two that aren't.
fn refused<R: Abort + AllocGlobal + Wait>(rt: &R) {
    let (pool, mut ours) = wide_pool(rt);
    let confined = opened_beside(rt, &pool, &mut ours, Kind::Confined);
    let closed = opened_beside(rt, &pool, &mut ours, Kind::Shared);
    let held = opened_beside(rt, &pool, &mut ours, Kind::Shared);
    let free = opened_beside(rt, &pool, &mut ours, Kind::Shared);
    same(rt, close(rt, &pool, &mut ours, closed), Ok(()));
    let ticket = hold(rt, &pool, &mut ours, held).expect(rt, "alive");
    let theirs = drawn(rt, &pool, &mut ours);
    let mut set = new_set(rt, &pool, theirs);
    tried(rt, &mut set, confined, Err(Refusal::WrongThread));
    tried(rt, &mut set, free, Ok(()));
    tried(rt, &mut set, closed, Err(Refusal::Closed));
    tried(rt, &mut set, held, Err(Refusal::Held(1)));
    tried(rt, &mut set, free, Err(Refusal::Closed));
    set.advance();
    swept(rt, set, 1);
    unhold(&pool, &mut ours, ticket);
}

#[test]
fn refused_arenas_leave_the_set_as_it_was(rt: HostRuntime) {
    refused(&rt);
}
