//! Pages, which an arena gets one by one as it allocates, and gives back as it ends.
ghost use Rattle.std.specs.Prelude.{◌<◌, ◌≤◌};
ghost use Rattle.fm_base.specs.Learnt.{CanVisit};
ghost use Rattle.fm_rule_calls.specs.Told.{view_of_pass};
ghost use Rattle.fm_arena.specs.Handles.{CanGiveBack};

use crate::tests::arenas::automatic;
use crate::tests::compared::same;
use crate::tests::pools::pool_as;
use crate::tests::segment_calls::{Call, Part, calls, fresh};
use fm_arena::{Arena, AutoHandle, Shared, a_handle_lasts};
use fm_base::{ArenaId, Kind, Memory, Refusal};
use fm_close::GaveBack;
use fm_words::Shape;
use std::alloc::AllocGlobal;
use std::process::Abort;
use std::sync::Wait;

/// One pass and four pages of 64 bytes, of which an arena has three at most. Each of the two slots has two arenas, one
/// after another.
const FOUR_PAGES: Shape = Shape {
    passes: 1,
    slots: 2,
    pages: 4,
    page_words: 8,
    reach: 3,
    generations: 2,
};

/// What an allocation is answered where another arena has given so many bytes, and its own some.
fn answered<R: Abort + AllocGlobal + Wait>(
    rt: &R,
    taken: u64,
    given: u64,
    size: u64,
    align: u64,
) -> Result<u64, Refusal> {
    let (pool, pass) = pool_as(rt, FOUR_PAGES);
    let mut m = Shared::new(&pool, pass);
    let other = m.open_arena(rt, Kind::Shared).expect(rt, "a slot");
    let a = m.open_arena(rt, Kind::Shared).expect(rt, "a slot");
    same(rt, m.allocate(rt, other, taken, 8), Ok(0));
    same(rt, m.allocate(rt, a, given, 8), Ok(0));
    m.allocate(rt, a, size, align)
}

#[test]
fn an_allocation_wants_the_pages_of_its_range(rt: HostRuntime) {
    let rows = [
        // one part, two and all three
        (192, 0, 64, 1, Ok(0)),
        (192, 0, 65, 1, Err(Refusal::PoolFull)),
        (128, 0, 65, 1, Ok(0)),
        (128, 0, 129, 1, Err(Refusal::PoolFull)),
        (64, 0, 192, 1, Ok(0)),
        (192, 0, 193, 1, Err(Refusal::NoRoom(0))),
        // bytes that are skipped are given too
        (192, 8, 8, 64, Err(Refusal::PoolFull)),
        (128, 8, 8, 64, Ok(64)),
        (128, 8, 8, 128, Err(Refusal::PoolFull)),
        (64, 8, 8, 128, Ok(128)),
        // also where no others are asked for
        (192, 8, 0, 64, Ok(64)),
        (192, 8, 0, 128, Err(Refusal::PoolFull)),
        (128, 8, 0, 128, Ok(128)),
        (192, 8, 0, 256, Err(Refusal::NoRoom(8))),
    ];
    for (taken, given, size, align, answer) in rows {
        same(&rt, answered(&rt, taken, given, size, align), answer);
    }
}

#[test]
fn who_found_no_page_finds_it_once_another_arena_is_closed(rt: HostRuntime) {
    let (pool, pass) = pool_as(&rt, FOUR_PAGES);
    let mut m = Shared::new(&pool, pass);
    let a = Arena::start(&rt, &mut m, Kind::Confined).expect(&rt, "a slot");
    let b = Arena::start(&rt, &mut m, Kind::Shared).expect(&rt, "a slot");
    same(&rt, m.allocate(&rt, a.id(), 128, 8), Ok(0));
    same(&rt, m.allocate(&rt, b.id(), 192, 8), Err(Refusal::PoolFull));
    // It keeps the two pages that it found.
    same(&rt, m.allocate(&rt, a.id(), 1, 1), Err(Refusal::PoolFull));
    same(&rt, a.close(&rt, &mut m), Ok(()));
    same(&rt, m.allocate(&rt, b.id(), 192, 8), Ok(0));
}

/// Another arena, for which the page that is left is too few.
fn short<R: Abort + Wait>(rt: &R, m: &mut Shared, handle: &AutoHandle) -> ArenaId
    requires { CanGiveBack m.old handle.now }
    ensures handle { CanGiveBack m.new handle.now }
    ensures visit { CanVisit (view_of_pass m.new) result }
{
    a_handle_lasts();
    let a = m.open_arena(rt, Kind::Shared).expect(rt, "a slot");
    same(rt, m.allocate(rt, a, 65, 1), Err(Refusal::PoolFull));
    a
}

#[test]
fn the_last_handle_gives_the_pages_back(rt: HostRuntime) {
    let (pool, pass) = pool_as(&rt, FOUR_PAGES);
    let mut m = Shared::new(&pool, pass);
    let (handle, _) = automatic(&rt, &mut m, 192);
    let a = short(&rt, &mut m, &handle);
    same(&rt, handle.give_back(&rt, &mut m), GaveBack::Ended);
    same(&rt, m.allocate(&rt, a, 65, 1), Ok(0));
}

#[test]
fn each_page_is_zeros_when_it_is_lent_again(rt: HostRuntime) {
    let (pool, pass) = pool_as(&rt, FOUR_PAGES);
    let mut m = Shared::new(&pool, pass);
    let arena = m.start(&rt, Kind::Shared).expect(&rt, "a slot");
    let s = m.allocate_segment(&rt, &arena, 192, 8).expect(&rt, "pages");
    same(&rt, s.fill(&rt, &mut m, 255), Ok(()));
    same(&rt, arena.close(&rt, &mut m), Ok(()));
    let s = fresh(&rt, &mut m, Kind::Shared, 192);
    for word in 0..24 {
        let all = Part {
            at: 0,
            size: 192,
            is_read_only: false,
        };
        calls(&rt, &mut m, &s, &[(Call::Get(all, 8 * word), Ok(0))]);
    }
}

/// What an allocation of all bytes of a pool of so many pages is answered, and then one of another arena.
fn all_and_more<R: Abort + AllocGlobal + Wait>(
    rt: &R,
    pages: u32,
) -> (Result<u64, Refusal>, Result<u64, Refusal>)
    requires some { 0 < pages }
    requires few { pages ≤ 4096 }
{
    let shape = Shape {
        passes: 2,
        slots: 2,
        pages,
        page_words: 1,
        reach: pages,
        generations: 1,
    };
    let (pool, pass) = pool_as(rt, shape);
    let mut m = Shared::new(&pool, pass);
    let a = m.open_arena(rt, Kind::Shared).expect(rt, "a slot");
    let b = m.open_arena(rt, Kind::Shared).expect(rt, "a slot");
    let all = m.allocate(rt, a, 8 * u64::from(pages), 8);
    (all, m.allocate(rt, b, 1, 1))
}

#[test]
fn a_pool_has_as_many_pages_as_it_was_made_with(rt: HostRuntime) {
    for pages in 1..131 {
        same(
            &rt,
            all_and_more(&rt, pages),
            (Ok(0), Err(Refusal::PoolFull)),
        );
    }
    same(
        &rt,
        all_and_more(&rt, 4_096),
        (Ok(0), Err(Refusal::PoolFull)),
    );
}
