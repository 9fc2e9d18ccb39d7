ghost use Rattle.std.specs.Prelude.{◌≡◌, ◌+◌, ◌%◌, ◌<◌, ◌≤◌, Some};
ghost use Rattle.fm_base.specs.View.{Did, given_in};
ghost use Rattle.fm_lanes.specs.Kind.{width_of};
ghost use Rattle.fm_lanes.specs.Value.{kind_of};
ghost use Rattle.fm_handle.specs.Access.{DoesInside};
ghost use Rattle.fm_handle.specs.Acts.{Adds, Exchanges};

use crate::word::{is_same, sum_of, value_in, with_value};
use fm_base::{ArenaId, Memory};
use fm_lanes::{Order, Value};
use std::sync::Wait;

/// Puts `v` at `place` where the value there is `expected`, inside the arena, and answers the value found.
///
/// The value counts and not its word: where only other bytes of the word changed meanwhile, it tries again.
pub fn exchange_inside<R: Wait, M: Memory>(
    rt: &R,
    m: &mut M,
    arena: ArenaId,
    place: u64,
    order: Order,
    expected: Value,
    v: Value,
) -> Value
    requires inside { (M.view m.old).inside ≡ Some arena }
    requires given { place < given_in (M.view m.old) arena }
    requires within { place % 8 + width_of (kind_of v) ≤ 8 }
    requires kind { kind_of expected ≡ kind_of v }
    ensures did { Did (M.view m.old) (M.view m.new)
        (DoesInside (M.view m.old).caller (Exchanges order arena place expected v result)) }
    ensures inside { (M.view m.new).inside ≡ Some arena }
{
    let word = place / 8;
    let at = (place % 8) as u32;
    let mut seen = m.load(word);
    'tries: for _ in rt.forever() {
        let now = value_in(seen, at, v.kind(), order);
        if !is_same(now, expected) {
            return now;
        }
        let found = m.swap_if(word, seen, with_value(seen, at, order, v));
        if found == seen {
            return expected;
        }
        seen = found;
    }
    unreachable!()
}

/// Adds `delta` to the value at `place`, inside the arena, and answers the value found. The sum wraps in the value's
/// width, so that nothing is carried into other bytes of the word.
pub fn add_inside<R: Wait, M: Memory>(
    rt: &R,
    m: &mut M,
    arena: ArenaId,
    place: u64,
    order: Order,
    delta: Value,
) -> Value
    requires inside { (M.view m.old).inside ≡ Some arena }
    requires given { place < given_in (M.view m.old) arena }
    requires within { place % 8 + width_of (kind_of delta) ≤ 8 }
    ensures did { Did (M.view m.old) (M.view m.new)
        (DoesInside (M.view m.old).caller (Adds order arena place delta result)) }
    ensures inside { (M.view m.new).inside ≡ Some arena }
{
    let word = place / 8;
    let at = (place % 8) as u32;
    let mut seen = m.load(word);
    'tries: for _ in rt.forever() {
        let before = value_in(seen, at, delta.kind(), order);
        let after = with_value(seen, at, order, sum_of(before, delta));
        let found = m.swap_if(word, seen, after);
        if found == seen {
            return before;
        }
        seen = found;
    }
    unreachable!()
}
