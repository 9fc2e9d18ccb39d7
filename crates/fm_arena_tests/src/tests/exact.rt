ghost use Rattle.std.specs.Prelude.{◌≡◌, None};
ghost use Rattle.fm_base.specs.View.{IsByItself};
ghost use Rattle.fm_base.specs.Does.{CanReach};

use fm_base::{Kind, Memory};
use std::process::Abort;
use std::sync::Wait;

/// What a caller finds that is by itself: what it put.
fn find_what_was_put<M: Memory>(m: &mut M, word: u64, v: u64) -> u64
    requires reach { CanReach (M.view m.old) word }
    requires by_itself { IsByItself (M.view m.old) }
    ensures found { result ≡ v }
    ensures inside { (M.view m.new).inside ≡ (M.view m.old).inside }
{
    m.store(word, v);
    m.load(word)
}

/// What every memory does whose caller is by itself, be it alone or told that each other was gathered into it.
pub fn use_by_itself<R: Abort + Wait, M: Memory>(rt: &R, m: &mut M)
    requires outside { (M.view m.old).inside ≡ None }
    requires by_itself { IsByItself (M.view m.old) }
    ensures { (M.view m.new).inside ≡ None }
{
    let a = m.open_arena(rt, Kind::Shared).expect(rt, "an arena");
    let place = m.allocate(rt, a, 8, 8).expect(rt, "bytes");
    m.enter(a).expect(rt, "an arena that is open");
    let found = find_what_was_put(m, place / 8, 7);
    prove!(found == 7);
    m.leave();
}
