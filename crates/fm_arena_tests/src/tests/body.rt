ghost use Rattle.std.specs.Prelude.{◌≡◌, ◌≤◌, true, None};
ghost use Rattle.fm_base.specs.Arenas.{has_arena};
ghost use Rattle.fm_base.specs.Does.{CanReach};
ghost use Rattle.fm_base.specs.Learnt.{CanVisit};

use crate::tests::compared::same;
use fm_base::{ArenaId, Kind, Memory, Refusal};
use std::process::Abort;
use std::sync::Wait;

/// A call on an arena by a caller that is in none.
#[derive(Clone, Copy)]
pub enum Ask {
    /// Bytes of a size and an alignment are allocated.
    Allocate(u64, u64),
    /// The arena is entered and left.
    Visit,
    Close,
}

/// The place of the first byte, or 0 where there is nothing to answer.
fn answer<R: Wait, M: Memory>(rt: &R, m: &mut M, id: ArenaId, ask: Ask) -> Result<u64, Refusal>
    requires { CanVisit (M.view m.old) id }
    ensures { CanVisit (M.view m.new) id }
{
    match ask {
        Ask::Allocate(size, align) => m.allocate(rt, id, size, align),
        Ask::Visit => match m.enter(id) {
            Ok(()) => {
                m.leave();
                Ok(0)
            }
            Err(refusal) => Err(refusal),
        },
        Ask::Close => m.close(rt, id).and(Ok(0)),
    }
}

/// Stops where one of the calls isn't answered so.
pub fn asks<R: Abort + Wait, M: Memory>(
    rt: &R,
    m: &mut M,
    id: ArenaId,
    rows: &[(Ask, Result<u64, Refusal>)],
)
    requires { CanVisit (M.view m.old) id }
    ensures { CanVisit (M.view m.new) id }
{
    for (k, row) in rows.iter().enumerate() {
        let (ask, wanted) = *row;
        same(rt, (k, answer(rt, m, id, ask)), (k, wanted));
    }
}

/// Inside a shared arena with two words.
fn enter_two_words<R: Abort + Wait, M: Memory>(rt: &R, m: &mut M)
    requires { (M.view m.old).inside ≡ None }
    ensures { CanReach (M.view m.new) 1 }
{
    let a = m.open_arena(rt, Kind::Shared).expect(rt, "an arena");
    same(rt, m.allocate(rt, a, 16, 8), Ok(0));
    same(rt, m.enter(a), Ok(()));
}

/// What every memory does with a word of a shared arena, of which others add `step` before each call on the word.
pub fn use_a_word<R: Abort + Wait, M: Memory>(rt: &R, m: &mut M, step: u64)
    requires outside { (M.view m.old).inside ≡ None }
    requires small { step ≤ 1 }
    ensures { (M.view m.new).inside ≡ None }
{
    enter_two_words(rt, m);
    m.store(1, 7);
    let loaded = m.load(1);
    let found = m.swap_if(1, 0, 5);
    let added = m.add(1, 10);
    let patched = m.patch(rt, 1, 0xff00, 0x4200);
    let left = m.load(1);
    m.leave();
    same(rt, (loaded, found), (7 + step, 7 + 2 * step));
    same(rt, (added, patched), (7 + 3 * step, 17 + 4 * step));
    same(rt, left, 0x4200 + 17 + 5 * step);
}

/// What every memory does with an arena that is closed.
pub fn close_an_arena<R: Abort + Wait, M: Memory>(rt: &R, m: &mut M)
    requires outside { (M.view m.old).inside ≡ None }
    ensures { (M.view m.new).inside ≡ None }
{
    let a = m.open_arena(rt, Kind::Confined).expect(rt, "an arena");
    let rows = [
        (Ask::Allocate(1, 3), Err(Refusal::BadAlignment)),
        (Ask::Close, Ok(0)),
        (Ask::Visit, Err(Refusal::Closed)),
        (Ask::Allocate(1, 1), Err(Refusal::Closed)),
        (Ask::Close, Err(Refusal::Closed)),
    ];
    asks(rt, m, a, &rows);
}

/// What every memory does with an arena that is confined to another caller.
pub fn stay_out<R: Abort + Wait, M: Memory>(rt: &R, m: &mut M, id: ArenaId)
    requires outside { (M.view m.old).inside ≡ None }
    requires known { has_arena (M.view m.old).state id ≡ true }
    ensures { (M.view m.new).inside ≡ None }
{
    let rows = [
        (Ask::Visit, Err(Refusal::WrongThread)),
        (Ask::Allocate(1, 3), Err(Refusal::BadAlignment)),
        (Ask::Allocate(1, 1), Err(Refusal::WrongThread)),
        (Ask::Close, Err(Refusal::WrongThread)),
    ];
    asks(rt, m, id, &rows);
}
