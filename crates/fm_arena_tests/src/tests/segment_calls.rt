ghost use Rattle.std.specs.Prelude.{◌≡◌, ◌≢◌, None};
ghost use Rattle.fm_base.specs.Outcomes.{Lasts};
ghost use Rattle.fm_segment.specs.Learnt.{CanUse};

use crate::tests::compared::same;
use fm_base::{Kind, Memory, Refusal};
use fm_lanes::{Value, ValueKind};
use fm_layout::Layout;
use fm_segment::Segment;
use std::process::Abort;
use std::sync::Wait;

/// A segment of so many bytes of a fresh arena.
pub fn fresh<R: Abort + Wait, M: Memory>(rt: &R, m: &mut M, kind: Kind, size: u64) -> Segment
    requires outside { (M.view m.old).inside ≡ None }
    requires by_hand { kind ≢ Kind.Automatic }
    ensures known { CanUse (M.view m.new) result }
    ensures lasts { Lasts (M.view m.old) (M.view m.new) }
{
    let arena = m.open_arena(rt, kind).expect(rt, "an arena");
    let first = m.allocate(rt, arena, size, 8).expect(rt, "bytes");
    Segment::of(arena, first, size)
}

/// So many bytes of a segment from an offset on.
#[derive(Clone, Copy)]
pub struct Part {
    pub at: u64,
    pub size: u64,
    pub is_read_only: bool,
}

impl Part {
    /// The part of a segment that is known.
    fn of<R: Abort, M: Memory>(self, rt: &R, m: &M, s: &Segment) -> Segment
        requires { CanUse (M.view m.now) s.now }
        ensures { CanUse (M.view m.now) result }
    {
        assert!(rt; self.at <= s.size() && self.size <= s.size() - self.at);
        let part = Segment::of(s.arena(), s.first() + self.at, self.size);
        if self.is_read_only {
            part.as_read_only()
        } else {
            part
        }
    }
}

/// A call on parts of one segment.
#[derive(Clone, Copy)]
pub enum Call<'a> {
    /// The long at an offset is got.
    Get(Part, u64),
    Set(Part, u64, i64),
    Fill(Part, u8),
    /// Bytes are put from an offset on.
    Put(Part, u64, &'a [u8]),
    /// The first part is copied from the second.
    CopyFrom(Part, Part),
    /// From an offset of the first part to one of the second, so many bytes.
    Copy(Part, u64, Part, u64, u64),
    Mismatch(Part, Part),
    Close,
}

/// What was got or compared, or 0 where there is nothing to answer.
fn answer<R: Abort + Wait, M: Memory>(
    rt: &R,
    m: &mut M,
    s: &Segment,
    call: Call,
) -> Result<i64, Refusal>
    requires { CanUse (M.view m.old) s.now }
    ensures can { CanUse (M.view m.new) s.now }
    ensures lasts { Lasts (M.view m.old) (M.view m.new) }
{
    let long = Layout::value(ValueKind::Long);
    match call {
        Call::Get(part, offset) => match part.of(rt, m, s).get(m, &long, offset) {
            Ok(Value::Long(n)) => Ok(n),
            Ok(_) => Ok(0),
            Err(refusal) => Err(refusal),
        },
        Call::Set(part, offset, n) => {
            let part = part.of(rt, m, s);
            part.set(rt, m, &long, offset, Value::Long(n)).and(Ok(0))
        }
        Call::Fill(part, byte) => part.of(rt, m, s).fill(rt, m, byte).and(Ok(0)),
        Call::Put(part, offset, bytes) => {
            let part = part.of(rt, m, s);
            part.put_bytes(rt, m, offset, bytes).and(Ok(0))
        }
        Call::CopyFrom(to, from) => {
            let (to, from) = (to.of(rt, m, s), from.of(rt, m, s));
            to.copy_from(rt, m, &from).and(Ok(0))
        }
        Call::Copy(from, from_at, to, to_at, n) => {
            let (from, to) = (from.of(rt, m, s), to.of(rt, m, s));
            Segment::copy(rt, m, &from, from_at, &to, to_at, n).and(Ok(0))
        }
        Call::Mismatch(one, other) => {
            let (one, other) = (one.of(rt, m, s), other.of(rt, m, s));
            one.mismatch(m, &other)
        }
        Call::Close => m.close(rt, s.arena()).and(Ok(0)),
    }
}

/// Stops where one of the calls isn't answered so.
pub fn calls<R: Abort + Wait, M: Memory>(
    rt: &R,
    m: &mut M,
    s: &Segment,
    rows: &[(Call, Result<i64, Refusal>)],
)
    requires { CanUse (M.view m.old) s.now }
    ensures can { CanUse (M.view m.new) s.now }
    ensures lasts { Lasts (M.view m.old) (M.view m.new) }
{
    for (k, row) in rows.iter().enumerate() {
        let (call, wanted) = *row;
        same(rt, (k, answer(rt, m, s, call)), (k, wanted));
    }
}
