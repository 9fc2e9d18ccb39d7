//! The turns of a `Braided`, each just before its own call. The memory below it is one too, whose turns count its calls.
ghost use Rattle.std.specs.Prelude.{◌≡◌, None};

use crate::tests::body::{close_an_arena, use_a_word};
use crate::tests::compared::same;
use fm_arena_braided::{Braided, Turn};
use fm_base::{Kind, Memory};
use fm_mono::Mono;
use std::cell::Cell;
use std::process::Abort;
use std::sync::Wait;

/// Counts the numbered calls of a memory below, each before it is made.
#[derive(Drop)]
struct Count<'a> {
    made: &'a Cell<u64>,
}

impl<'a> Turn for Count<'a> {
    ghost turns = { λ old at new. Unit };

    fn turn(&mut self, _at: u64) {
        self.made.set(self.made.get().wrapping_add(1));
    }
}

/// Counts the turns, and whether each came when just as many calls were made as its number says.
#[derive(Drop)]
struct Watch<'a> {
    made: &'a Cell<u64>,
    came: u64,
    is_in_time: bool,
}

impl<'a> Turn for Watch<'a> {
    ghost turns = { λ old at new. Unit };

    fn turn(&mut self, at: u64) {
        self.came = self.came.wrapping_add(1);
        self.is_in_time = self.is_in_time && self.made.get() == at;
    }
}

/// Two words of a shared arena are put and read in runs.
fn use_runs<R: Abort + Wait, M: Memory>(rt: &R, m: &mut M)
    requires { (M.view m.old).inside ≡ None }
    ensures { (M.view m.new).inside ≡ None }
{
    let a = m.open_arena(rt, Kind::Shared).expect(rt, "an arena");
    same(rt, m.allocate(rt, a, 16, 8), Ok(0));
    same(rt, m.enter(a), Ok(()));
    m.store_words(0, &[1, 2]);
    let mut words = [0, 0];
    m.load_words(0, &mut words);
    same(rt, words, [1, 2]);
    m.leave();
}

/// Of the 15 numbered calls 8 are of a word by itself, 6 of a visit with two runs of two words, and one enters a closed
/// arena; arenas are opened and closed in between, and bytes are given.
#[test]
fn each_turn_comes_just_before_its_call(rt: HostRuntime) {
    let made = Cell::new(0);
    let memory = Braided::new(Mono::make(rt.alloc(), 64), Count { made: &made });
    let watch = Watch {
        made: &made,
        came: 0,
        is_in_time: true,
    };
    let mut m = Braided::new(memory, watch);
    use_a_word(&rt, &mut m, 0);
    use_runs(&rt, &mut m);
    close_an_arena(&rt, &mut m);
    let (below, watch) = m.into_parts();
    let _ = below.into_parts();
    same(&rt, (watch.came, watch.is_in_time), (15, true));
    same(&rt, made.get(), 15);
}
