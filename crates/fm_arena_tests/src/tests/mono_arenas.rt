ghost use Rattle.std.specs.Prelude.{◌≡◌, ◌≢◌, None};
ghost use Rattle.fm_mono.specs.Shown.{IsKnown};

use crate::tests::body::{Ask, asks};
use crate::tests::compared::same;
use fm_base::{ArenaId, Kind, Memory, Refusal};
use fm_mono::Mono;
use std::process::Abort;
use std::sync::Wait;

fn open<R: Abort + Wait>(rt: &R, m: &mut Mono, kind: Kind) -> ArenaId
    requires outside { m.old.inside ≡ None }
    requires by_hand { kind ≢ Kind.Automatic }
    ensures outside { m.new.inside ≡ None }
    ensures known { IsKnown m.new result }
{
    m.open_arena(rt, kind).expect(rt, "an arena")
}

#[test]
fn rows_of_one_shared_arena(rt: HostRuntime) {
    let mut m = Mono::make(rt.alloc(), 64);
    let a = open(&rt, &mut m, Kind::Shared);
    let rows = [
        (Ask::Allocate(60, 4), Ok(0)),
        (Ask::Allocate(8, 8), Err(Refusal::NoRoom(60))),
        (Ask::Allocate(4, 4), Ok(60)),
        (Ask::Allocate(4, 3), Err(Refusal::BadAlignment)),
        (Ask::Close, Ok(0)),
        (Ask::Visit, Err(Refusal::Closed)),
        (Ask::Close, Err(Refusal::Closed)),
    ];
    asks(&rt, &mut m, a, &rows);
}

#[test]
fn places_up_to_the_limit(rt: HostRuntime) {
    let mut m = Mono::make(rt.alloc(), 16);
    let a = open(&rt, &mut m, Kind::Confined);
    let rows = [
        (Ask::Allocate(17, 1), Err(Refusal::NoRoom(0))),
        (Ask::Allocate(1, 1 << 40), Ok(0)),
        (Ask::Allocate(0, 8), Ok(8)),
        (Ask::Allocate(0, 1 << 40), Err(Refusal::NoRoom(8))),
        (Ask::Allocate(8, 8), Ok(8)),
        (Ask::Allocate(0, 1), Ok(16)),
        (Ask::Allocate(1, 1), Err(Refusal::NoRoom(16))),
    ];
    asks(&rt, &mut m, a, &rows);
}

#[test]
fn closing_each_kind(rt: HostRuntime) {
    let mut m = Mono::make(rt.alloc(), 64);
    let never = Err(Refusal::CannotClose(Kind::Global));
    let global = open(&rt, &mut m, Kind::Global);
    asks(
        &rt,
        &mut m,
        global,
        &[(Ask::Close, never), (Ask::Close, never)],
    );
    let once = [(Ask::Close, Ok(0)), (Ask::Close, Err(Refusal::Closed))];
    let confined = open(&rt, &mut m, Kind::Confined);
    asks(&rt, &mut m, confined, &once);
    let shared = open(&rt, &mut m, Kind::Shared);
    asks(&rt, &mut m, shared, &once);
}

#[test]
fn words_of_one_arena(rt: HostRuntime) {
    let mut m = Mono::make(rt.alloc(), 32);
    let a = open(&rt, &mut m, Kind::Shared);
    same(&rt, m.allocate(&rt, a, 32, 8), Ok(0));
    same(&rt, m.enter(a), Ok(()));
    m.store(1, 7);
    same(&rt, m.swap_if(1, 6, 5), 7);
    same(&rt, m.swap_if(1, 7, u64::MAX), 7);
    same(&rt, m.add(1, 3), u64::MAX);
    same(&rt, m.patch(&rt, 1, 0xff00, 0x4200), 2);
    same(&rt, (m.load(0), m.load(1)), (0, 0x4202));
    m.store(3, 4);
    m.store_words(0, &[7, u64::MAX, 9]);
    same(&rt, (m.load(0), m.load(1)), (7, u64::MAX));
    same(&rt, (m.load(2), m.load(3)), (9, 4));
    m.store_words(4, &[]);
    m.leave();
    same(&rt, m.close(&rt, a), Ok(()));
    same(&rt, m.enter(a), Err(Refusal::Closed));
}

#[test]
fn many_arenas_have_names_of_their_own(rt: HostRuntime) {
    let mut m = Mono::make(rt.alloc(), 64);
    for slot in 0..65_535u32 {
        let a = open(&rt, &mut m, Kind::Shared);
        same(&rt, (a.slot, a.generation, a.owner), (slot, 0, 0));
    }
}
