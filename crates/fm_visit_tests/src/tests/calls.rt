ghost use Rattle.std.specs.Prelude.{◌≡◌, ◌^◌, ◌≤◌, true, None, length};
ghost use Rattle.fm_base.specs.Outcomes.{Lasts};
ghost use Rattle.fm_segment.specs.Learnt.{CanUse};
ghost use Rattle.fm_visit.specs.Learnt.{IsIn};

use fm_base::{Kind, Memory, Refusal};
use fm_segment::Segment;
use fm_visit::Visit;
use std::fmt::Debug;
use std::process::Abort;
use std::sync::Wait;

pub(crate) fn same<R: Abort, T: PartialEq + Debug + Drop>(rt: &R, found: T, wanted: T)
    ensures { T.eq found wanted ≡ true }
{
    assert_eq!(rt; found, wanted);
}

/// Of a fresh shared arena 28 bytes, of which the word at the offset 4 is the first at a word's start.
pub(crate) fn fresh<R: Abort + Wait, M: Memory>(rt: &R, m: &mut M) -> Segment
    requires { (M.view m.old).inside ≡ None }
    ensures known { CanUse (M.view m.new) result }
    ensures lasts { Lasts (M.view m.old) (M.view m.new) }
{
    let arena = m.open_arena(rt, Kind::Shared).expect(rt, "an arena");
    same(rt, m.allocate(rt, arena, 4, 4), Ok(0));
    same(rt, m.allocate(rt, arena, 28, 4), Ok(4));
    Segment::of(arena, 4, 28)
}

/// Stops where a word that is got isn't answered so.
fn gets<R: Abort, M: Memory>(
    rt: &R,
    m: &mut M,
    visit: &Visit,
    s: &Segment,
    offset: u64,
    answer: Result<u64, Refusal>,
)
    requires { IsIn (M.view m.old) visit.now.arena s.now }
    ensures { IsIn (M.view m.new) visit.now.arena s.now }
{
    same(rt, (visit.get_word(m, s, offset), offset), (answer, offset));
}

/// Stops where a word that is set isn't answered so.
fn sets<R: Abort, M: Memory>(
    rt: &R,
    m: &mut M,
    visit: &Visit,
    s: &Segment,
    offset: u64,
    answer: Result<(), Refusal>,
)
    requires { IsIn (M.view m.old) visit.now.arena s.now }
    ensures { IsIn (M.view m.new) visit.now.arena s.now }
{
    let found = visit.set_word(m, s, offset, 7);
    same(rt, (found, offset), (answer, offset));
}

/// Stops where three words that are got aren't answered so.
fn gets_all<R: Abort, M: Memory>(
    rt: &R,
    m: &mut M,
    visit: &Visit,
    s: &Segment,
    offset: u64,
    answer: Result<[u64; 3], Refusal>,
)
    requires { IsIn (M.view m.old) visit.now.arena s.now }
    ensures { IsIn (M.view m.new) visit.now.arena s.now }
{
    let mut words = [1, 2, 3];
    let found = visit.get_words(m, s, offset, &mut words);
    let wanted = answer.unwrap_or([1, 2, 3]);
    same(rt, (found, words), (answer.map(|_| ()), wanted));
}

/// Stops where words that are put aren't answered so.
fn puts<R: Abort, M: Memory>(
    rt: &R,
    m: &mut M,
    visit: &Visit,
    s: &Segment,
    offset: u64,
    words: &[u64],
    answer: Result<(), Refusal>,
)
    requires inside { IsIn (M.view m.old) visit.now.arena s.now }
    requires few { length words.now ≤ 2 ^ 37 }
    ensures { IsIn (M.view m.new) visit.now.arena s.now }
{
    let found = visit.put_words(m, s, offset, words);
    same(rt, (found, offset), (answer, offset));
}

/// What the words of a segment are, of which others add `step` before each act on one.
pub(crate) fn use_words<R: Abort, M: Memory>(
    rt: &R,
    m: &mut M,
    visit: &Visit,
    s: &Segment,
    step: u64,
)
    requires inside { IsIn (M.view m.old) visit.now.arena s.now }
    requires small { step ≤ 1 }
    ensures { IsIn (M.view m.new) visit.now.arena s.now }
{
    sets(rt, m, visit, s, 4, Ok(()));
    gets(rt, m, visit, s, 4, Ok(7 + step));
    puts(rt, m, visit, s, 12, &[8, 9], Ok(()));
    let found = [7 + 2 * step, 8 + step, 9 + step];
    gets_all(rt, m, visit, s, 4, Ok(found));
}

/// What the arguments refuse, the first cause that applies.
pub(crate) fn refuse<R: Abort, M: Memory>(rt: &R, m: &mut M, visit: &Visit, s: &Segment)
    requires { IsIn (M.view m.old) visit.now.arena s.now }
    ensures { IsIn (M.view m.new) visit.now.arena s.now }
{
    for (offset, refusal) in [
        (0, Refusal::Misaligned),
        (5, Refusal::Misaligned),
        (21, Refusal::Bounds),
        (28, Refusal::Bounds),
        (u64::MAX, Refusal::Bounds),
    ] {
        gets(rt, m, visit, s, offset, Err(refusal));
        sets(rt, m, visit, s, offset, Err(refusal));
        puts(rt, m, visit, s, offset, &[1], Err(refusal));
    }
    gets_all(rt, m, visit, s, 0, Err(Refusal::Misaligned));
    gets_all(rt, m, visit, s, 12, Err(Refusal::Bounds));
}

/// Through a read-only segment nothing is put; no word is, where there is none.
pub(crate) fn refuse_read_only<R: Abort, M: Memory>(rt: &R, m: &mut M, visit: &Visit, s: &Segment)
    requires inside { IsIn (M.view m.old) visit.now.arena s.now }
    requires read_only { s.now.read_only ≡ true }
    ensures { IsIn (M.view m.new) visit.now.arena s.now }
{
    sets(rt, m, visit, s, 4, Err(Refusal::ReadOnly));
    sets(rt, m, visit, s, u64::MAX, Err(Refusal::ReadOnly));
    puts(rt, m, visit, s, 0, &[1, 2], Err(Refusal::ReadOnly));
    puts(rt, m, visit, s, 28, &[], Ok(()));
    puts(rt, m, visit, s, 29, &[], Err(Refusal::Bounds));
}

/// Nothing is done with a segment of another arena, whatever the offset.
pub(crate) fn refuse_another<R: Abort, M: Memory>(rt: &R, m: &mut M, visit: &Visit, s: &Segment)
    requires { IsIn (M.view m.old) visit.now.arena s.now }
    ensures { IsIn (M.view m.new) visit.now.arena s.now }
{
    for offset in [4, 0, u64::MAX] {
        gets(rt, m, visit, s, offset, Err(Refusal::Unsupported));
        sets(rt, m, visit, s, offset, Err(Refusal::Unsupported));
        gets_all(rt, m, visit, s, offset, Err(Refusal::Unsupported));
        puts(rt, m, visit, s, offset, &[1], Err(Refusal::Unsupported));
    }
}
