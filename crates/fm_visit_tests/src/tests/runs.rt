//! Runs of bytes that are longer than what is read at once, and begin within a word.
ghost use Rattle.std.specs.Prelude.{◌≡◌, ◌+◌, ◌≤◌, None};
ghost use Rattle.fm_visit.specs.Learnt.{IsIn};

use crate::tests::calls::same;
use fm_base::{Kind, Memory};
use fm_segment::Segment;
use fm_visit::Visit;
use std::process::Abort;
use std::sync::Wait;

/// Five bytes up to a word's start, 64 words that are read at once, 22 more, and seven bytes.
const SIZE: usize = 700;

type Bytes = [u8; 700];

/// No two words of a page are the same.
fn pattern() -> Bytes {
    let mut bytes = [0; SIZE];
    for k in 0..SIZE {
        bytes[k] = (k % 251) as u8;
    }
    bytes
}

/// The bytes once `n` of them were copied.
fn copied(bytes: &Bytes, from: usize, to: usize, n: usize) -> Bytes
    requires source { from + n ≤ 700 }
    requires target { to + n ≤ 700 }
{
    let mut copied = *bytes;
    for k in 0..n {
        copied[to + k] = bytes[from + k];
    }
    copied
}

/// Stops where other bytes are got, at an offset of a segment.
fn gets_bytes<R: Abort, M: Memory>(rt: &R, m: &mut M, visit: &Visit, s: &Segment, bytes: &Bytes)
    requires { IsIn (M.view m.old) visit.now.arena s.now }
    ensures { IsIn (M.view m.new) visit.now.arena s.now }
{
    let mut found = [1; SIZE];
    same(rt, visit.get_bytes(m, s, 0, &mut found), Ok(()));
    same(rt, found.as_slice() == bytes.as_slice(), true);
}

/// Copies `n` of the bytes, there and in the segment.
fn copies<R: Abort + Wait, M: Memory>(
    rt: &R,
    m: &mut M,
    visit: &Visit,
    s: &Segment,
    bytes: &mut Bytes,
    row: (usize, usize, usize),
)
    requires inside { IsIn (M.view m.old) visit.now.arena s.now }
    requires source { row.0 + row.2 ≤ 700 }
    requires target { row.1 + row.2 ≤ 700 }
    ensures { IsIn (M.view m.new) visit.now.arena s.now }
{
    let (from, to, n) = row;
    let copy = visit.copy(rt, m, s, from as u64, s, to as u64, n as u64);
    same(rt, copy, Ok(()));
    *bytes = copied(bytes, from, to, n);
    gets_bytes(rt, m, visit, s, bytes);
}

/// Bytes are put, and then copied within them, up and down, by whole words and not.
fn puts_and_copies<R: Abort + Wait, M: Memory>(rt: &R, m: &mut M, visit: &Visit, s: &Segment)
    requires { IsIn (M.view m.old) visit.now.arena s.now }
    ensures { IsIn (M.view m.new) visit.now.arena s.now }
{
    let mut bytes = pattern();
    same(rt, visit.put_bytes(rt, m, s, 0, &bytes), Ok(()));
    gets_bytes(rt, m, visit, s, &bytes);
    copies(rt, m, visit, s, &mut bytes, (0, 9, 691));
    copies(rt, m, visit, s, &mut bytes, (9, 0, 691));
    copies(rt, m, visit, s, &mut bytes, (5, 13, 600));
    copies(rt, m, visit, s, &mut bytes, (13, 5, 600));
    copies(rt, m, visit, s, &mut bytes, (3, 650, 50));
}

/// What every memory does whose words others leave alone.
pub(crate) fn use_runs<R: Abort + Wait, M: Memory>(rt: &R, m: &mut M)
    requires { (M.view m.old).inside ≡ None }
    ensures { (M.view m.new).inside ≡ None }
{
    let arena = m.open_arena(rt, Kind::Shared).expect(rt, "an arena");
    same(rt, m.allocate(rt, arena, 703, 1), Ok(0));
    let s = Segment::of(arena, 3, 700);
    let visit = Visit::enter(m, arena).expect(rt, "alive");
    puts_and_copies(rt, m, &visit, &s);
    visit.leave(m);
}
