ghost use Rattle.std.specs.Prelude.{◌≡◌, ◌+◌, ◌*◌, ◌^◌, ◌≤◌, ◌∷◌, [], length, IfOk, IfErr};
ghost use Rattle.fm_visit.specs.Learnt.{IsIn, AfterGetWord, AfterGetWords, AfterPutWords, place_of_words, place_to_put};

use fm_base::{Memory, Refusal};
use fm_segment::{Segment, is_aligned};

/// The word `offset` bytes from the segment's start. The caller is inside the segment's arena.
///
/// Refused, in this order: `Bounds`, `Misaligned`.
#[inline(always)]
pub fn get_word<M: Memory>(m: &mut M, s: &Segment, offset: u64) -> Result<u64, Refusal>
    requires { IsIn (M.view m.old) s.now.arena s.now }
    ensures { AfterGetWord (M.view m.old) (M.view m.new) s.now offset result }
{
    let place = place_of(s, offset, 1)?;
    Ok(m.load(place / 8))
}

/// Puts `v` there. Other bytes stay. The caller is inside the segment's arena.
///
/// Refused, in this order: `ReadOnly`, `Bounds`, `Misaligned`.
#[inline(always)]
pub fn set_word<M: Memory>(m: &mut M, s: &Segment, offset: u64, v: u64) -> Result<(), Refusal>
    requires { IsIn (M.view m.old) s.now.arena s.now }
    ensures { AfterPutWords (M.view m.old) (M.view m.new) s.now offset (v ∷ []) result }
{
    let place = writable_place_of(s, offset, 1)?;
    m.store(place / 8, v);
    Ok(())
}

/// Reads the words from `offset` on into the slice, as many as it has, the lowest first. The caller is inside the
/// segment's arena.
///
/// Refused, in this order: `Bounds`, `Misaligned`. A refused call leaves the slice as it was.
pub fn get_words<M: Memory>(
    m: &mut M,
    s: &Segment,
    offset: u64,
    into: &mut [u64],
) -> Result<(), Refusal>
    requires inside { IsIn (M.view m.old) s.now.arena s.now }
    requires few { length into.old ≤ 2 ^ 37 }
    ensures got { AfterGetWords (M.view m.old) (M.view m.new) s.now offset into.new result }
    ensures same { IfErr result (λ _. into.new ≡ into.old) }
    ensures size { length into.new ≡ length into.old }
{
    let place = place_of(s, offset, into.len() as u64)?;
    m.load_words(place / 8, into);
    Ok(())
}

/// Puts these words from `offset` on, the lowest first. Other bytes stay. The caller is inside the segment's arena.
///
/// Refused, in this order: `ReadOnly` where there is a word, `Bounds`, `Misaligned`. A refused call puts nothing.
pub fn put_words<M: Memory>(
    m: &mut M,
    s: &Segment,
    offset: u64,
    words: &[u64],
) -> Result<(), Refusal>
    requires inside { IsIn (M.view m.old) s.now.arena s.now }
    requires few { length words.now ≤ 2 ^ 37 }
    ensures { AfterPutWords (M.view m.old) (M.view m.new) s.now offset words.now result }
{
    let place = writable_place_of(s, offset, words.len() as u64)?;
    m.store_words(place / 8, words);
    Ok(())
}

/// The place in the arena of so many words at an offset. Refused, in this order: `Bounds`, `Misaligned`.
#[inline(always)]
fn place_of(s: &Segment, offset: u64, count: u64) -> Result<u64, Refusal>
    requires { count ≤ 2 ^ 37 }
    ensures place { result ≡ place_of_words offset count s.now }
    ensures small { IfOk result (λ p. p + 8 * count ≤ 2 ^ 40) }
{
    let slice = s.as_slice(offset, 8 * count)?;
    if !is_aligned(slice.first(), 8) {
        return Err(Refusal::Misaligned);
    }
    Ok(slice.first())
}

/// The same for a write. Refused, in this order: `ReadOnly` where there is a word, `Bounds`, `Misaligned`.
#[inline(always)]
fn writable_place_of(s: &Segment, offset: u64, count: u64) -> Result<u64, Refusal>
    requires { count ≤ 2 ^ 37 }
    ensures place { result ≡ place_to_put offset count s.now }
    ensures small { IfOk result (λ p. p + 8 * count ≤ 2 ^ 40) }
{
    if count > 0 && s.is_read_only() {
        return Err(Refusal::ReadOnly);
    }
    place_of(s, offset, count)
}
