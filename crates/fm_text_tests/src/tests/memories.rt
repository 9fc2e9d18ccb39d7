ghost use Rattle.std.specs.Prelude.{◌≡◌, None};
ghost use Rattle.fm_base.specs.Learnt.{CanVisit};
ghost use Rattle.fm_base.specs.Outcomes.{Lasts};
ghost use Rattle.fm_segment.specs.Learnt.{CanUse};

use crate::tests::calls::{gets, has, same, sets};
use crate::tests::pools::made;
use fm_arena::{Arena, Shared};
use fm_base::{Kind, Memory, Refusal};
use fm_mono::Mono;
use fm_segment::Segment;
use fm_text::allocate_text;
use std::alloc::Global;
use std::process::Abort;
use std::sync::Wait;

/// A text of three bytes, and what stands there.
fn use_hi<R: Abort + Wait, M: Memory>(rt: &R, m: &mut M, alloc: Global, arena: &Arena) -> Segment
    requires { CanVisit (M.view m.old) arena.now.id }
    ensures known { CanUse (M.view m.new) result }
    ensures lasts { Lasts (M.view m.old) (M.view m.new) }
{
    let s = allocate_text(rt, m, arena, "hi").expect(rt, "bytes");
    same(rt, s.size(), 3);
    has(rt, m, &s, 0, 0x68);
    has(rt, m, &s, 1, 0x69);
    has(rt, m, &s, 2, 0);
    gets(rt, m, alloc, &s, 0, Ok("hi"));
    gets(rt, m, alloc, &s, 1, Ok("i"));
    gets(rt, m, alloc, &s, 2, Ok(""));
    gets(rt, m, alloc, &s, 3, Err(Refusal::NoZero));
    gets(rt, m, alloc, &s, 4, Err(Refusal::Bounds));
    s
}

/// What may not be set, and what may.
fn set_in_place<R: Abort + Wait, M: Memory>(rt: &R, m: &mut M, alloc: Global, s: &Segment)
    requires { CanUse (M.view m.old) s.now }
    ensures known { CanUse (M.view m.new) s.now }
    ensures lasts { Lasts (M.view m.old) (M.view m.new) }
{
    let kept = s.as_read_only();
    sets(rt, m, &kept, 0, "no", Err(Refusal::ReadOnly));
    sets(rt, m, &kept, 9, "no", Err(Refusal::ReadOnly));
    gets(rt, m, alloc, &kept, 0, Ok("hi"));
    sets(rt, m, s, 0, "hi!", Err(Refusal::Bounds));
    sets(rt, m, s, 3, "", Err(Refusal::Bounds));
    sets(rt, m, s, u64::MAX, "", Err(Refusal::Bounds));
    gets(rt, m, alloc, s, 0, Ok("hi"));
    sets(rt, m, s, 2, "", Ok(()));
    sets(rt, m, s, 1, "a", Ok(()));
    gets(rt, m, alloc, s, 0, Ok("ha"));
}

/// What every memory does with texts of an arena that others leave alone.
fn use_texts<R: Abort + Wait, M: Memory>(rt: &R, m: &mut M, alloc: Global)
    requires { (M.view m.old).inside ≡ None }
{
    let arena = Arena::start(rt, m, Kind::Shared).expect(rt, "an arena");
    let s = use_hi(rt, m, alloc, &arena);
    set_in_place(rt, m, alloc, &s);
    same(rt, arena.close(rt, m), Ok(()));
    sets(rt, m, &s, 0, "hi", Err(Refusal::Closed));
    sets(rt, m, &s, 1, "hi", Err(Refusal::Bounds));
    gets(rt, m, alloc, &s, 0, Err(Refusal::Closed));
    gets(rt, m, alloc, &s, 3, Err(Refusal::NoZero));
    let none = allocate_text(rt, m, &arena, "hi");
    same(rt, none, Err(Refusal::Closed));
}

#[test]
fn one_thread(rt: HostRuntime) {
    let mut m = Mono::make(rt.alloc(), 64);
    use_texts(&rt, &mut m, rt.alloc());
}

#[test]
fn over_a_pool(rt: HostRuntime) {
    let (pool, pass) = made(&rt);
    let mut m = Shared::new(&pool, pass);
    use_texts(&rt, &mut m, rt.alloc());
}
