ghost use Rattle.std.specs.Prelude.{◌≡◌, true, None};
ghost use Rattle.fm_base.specs.Outcomes.{Lasts};
ghost use Rattle.fm_segment.specs.Learnt.{CanUse};

use fm_base::{Kind, Memory, Refusal};
use fm_lanes::{Value, ValueKind};
use fm_layout::Layout;
use fm_segment::Segment;
use fm_text::{get_text, set_text};
use std::alloc::Global;
use std::fmt::Debug;
use std::process::Abort;
use std::sync::Wait;

pub(crate) fn same<R: Abort, T: PartialEq + Debug + Drop>(rt: &R, found: T, wanted: T)
    ensures { T.eq found wanted ≡ true }
{
    assert_eq!(rt; found, wanted);
}

/// Stops where `set_text` doesn't answer so.
pub(crate) fn sets<R: Abort + Wait, M: Memory>(
    rt: &R,
    m: &mut M,
    s: &Segment,
    offset: u64,
    text: &str,
    answer: Result<(), Refusal>,
)
    requires { CanUse (M.view m.old) s.now }
    ensures known { CanUse (M.view m.new) s.now }
    ensures lasts { Lasts (M.view m.old) (M.view m.new) }
{
    same(
        rt,
        (set_text(rt, m, s, offset, text), offset),
        (answer, offset),
    );
}

/// Stops where `get_text` doesn't answer so.
pub(crate) fn gets<R: Abort, M: Memory>(
    rt: &R,
    m: &mut M,
    alloc: Global,
    s: &Segment,
    offset: u64,
    answer: Result<&str, Refusal>,
)
    requires { CanUse (M.view m.old) s.now }
    ensures known { CanUse (M.view m.new) s.now }
    ensures lasts { Lasts (M.view m.old) (M.view m.new) }
{
    match get_text(alloc, m, s, offset) {
        Ok(text) => same(rt, (Ok(text.as_str()), offset), (answer, offset)),
        Err(refusal) => same(rt, (Err(refusal), offset), (answer, offset)),
    }
}

/// Stops where the byte isn't this one.
pub(crate) fn has<R: Abort, M: Memory>(rt: &R, m: &mut M, s: &Segment, offset: u64, byte: i8)
    requires { CanUse (M.view m.old) s.now }
    ensures known { CanUse (M.view m.new) s.now }
    ensures lasts { Lasts (M.view m.old) (M.view m.new) }
{
    let found = s.get(m, &Layout::value(ValueKind::Byte), offset);
    same(rt, (found, offset), (Ok(Value::Byte(byte)), offset));
}

/// So many bytes of a fresh shared arena.
pub(crate) fn fresh<R: Abort + Wait, M: Memory>(rt: &R, m: &mut M, size: u64) -> Segment
    requires { (M.view m.old).inside ≡ None }
    ensures { CanUse (M.view m.new) result }
{
    let arena = m.open_arena(rt, Kind::Shared).expect(rt, "an arena");
    let first = m.allocate(rt, arena, size, 8).expect(rt, "bytes");
    Segment::of(arena, first, size)
}
