ghost use Rattle.std.specs.Prelude.{◌≡◌, ◌≤◌, None};

use crate::tests::body::{close_an_arena, use_a_word};
use crate::tests::exact::use_by_itself;
use crate::tests::handles::{use_ints, use_longs};
use crate::tests::segments::{copy_until_closed, use_ranges, use_values};
use fm_base::Memory;
use fm_memory_doubles::{Double, Others};
use fm_mono::Mono;
use std::alloc::Global;
use std::process::Abort;
use std::sync::Wait;

/// What every memory does whose arenas others leave alone.
pub fn use_alone<R: Abort + Wait, M: Memory>(rt: &R, m: &mut M, alloc: Global)
    requires { (M.view m.old).inside ≡ None }
    ensures { (M.view m.new).inside ≡ None }
{
    use_a_word(rt, m, 0);
    close_an_arena(rt, m);
    use_ranges(rt, m);
    use_values(rt, m, [7, 7, -1]);
    use_ints(rt, m, alloc, 0, 0);
    use_longs(rt, m, alloc, 0);
}

#[test]
fn one_thread(rt: HostRuntime) {
    let mut m = Mono::make(rt.alloc(), 64);
    use_by_itself(&rt, &mut m);
    use_alone(&rt, &mut m, rt.alloc());
}

/// Another adds 1 to the word before each call on it.
#[test]
fn beside_another_caller(rt: HostRuntime) {
    let others = Others::Add {
        script: u64::MAX,
        step: 1,
    };
    let mut m = Double::new(&rt, rt.alloc(), Mono::make(rt.alloc(), 64), others);
    use_a_word(&rt, &mut m, 1);
    close_an_arena(&rt, &mut m);
    use_ranges(&rt, &mut m);
    use_values(&rt, &mut m, [8, 10, 0]);
    use_longs(&rt, &mut m, rt.alloc(), 1);
}

#[test]
fn where_the_others_are_gathered(rt: HostRuntime) {
    let mono = Mono::make(rt.alloc(), 64);
    let mut m = Double::new(&rt, rt.alloc(), mono, Others::Gathered);
    use_by_itself(&rt, &mut m);
    use_alone(&rt, &mut m, rt.alloc());
}

/// The int at `index` of a word to which the other caller adds `step`, between the tries of an update.
fn use_beside_a_neighbour<R: Abort + Wait>(rt: &R, alloc: Global, index: u64, step: u64)
    requires { index ≤ 1 }
{
    let others = Others::Add {
        script: 0x4444_4444_4444_4444,
        step,
    };
    let mut m = Double::new(rt, alloc, Mono::make(alloc, 64), others);
    use_ints(rt, &mut m, alloc, index, 3);
}

/// The other caller changes the bytes above the value, or those below it.
#[test]
fn beside_a_neighbour_that_changes(rt: HostRuntime) {
    use_beside_a_neighbour(&rt, rt.alloc(), 0, 1 << 32);
    use_beside_a_neighbour(&rt, rt.alloc(), 1, 1);
}

#[test]
fn while_another_caller_closes(rt: HostRuntime) {
    let mono = Mono::make(rt.alloc(), 64);
    let mut m = Double::new(&rt, rt.alloc(), mono, Others::Close { left: 5 });
    copy_until_closed(&rt, &mut m);
}
