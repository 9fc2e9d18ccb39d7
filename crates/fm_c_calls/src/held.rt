ghost use Rattle.std.specs.Prelude.{◌≡◌, ◌*◌, ◌≤◌, length, Ok, IfOk, IfErr};
ghost use Rattle.fm_base.specs.Does.{CanReachAll};
ghost use Rattle.fm_base.specs.Learnt.{AfterStores};
ghost use Rattle.fm_base.specs.View.{IsSound, given_in};
ghost use Rattle.fm_base_bytes.specs.Words.{word_count, words_of};
ghost use Rattle.fm_mono.specs.Shown.{view_of};
ghost use Rattle.fm_segment_access.specs.Learnt.{Visited};
ghost use Rattle.fm_segment_access.specs.Runs.{DoesPutWords};
ghost use Rattle.fm_top_load.specs.Held.{IsHeld};
ghost use Rattle.fm_c_calls.specs.Held.{Holds, StandFirst};

use fm_base::{ArenaId, Kind, Memory, Refusal};
use fm_lanes::words_of;
use fm_mono::Mono;
use fm_segment::Segment;
use fm_top_load::RECORD_FILE_LIMIT;
use std::alloc::Global;

/// How many words are made of bytes before they are stored.
const AT_ONCE: usize = 64;

/// A memory of one thread with these bytes in a segment. They are copied once. Refused: `Memory`.
pub fn hold(alloc: Global, bytes: &[u8]) -> Result<(Mono, Segment), Refusal>
    requires { length bytes.now ≤ RECORD_FILE_LIMIT }
    ensures holds { IfOk result (λ held. Holds (view_of held.0) held.1 bytes.now) }
    ensures memory { IfErr result (λ refusal. refusal ≡ Refusal.Memory) }
{
    let size = bytes.len() as u64;
    let (mut memory, arena) = with_room(alloc, (size + 7) / 8)?;
    put(&mut memory, arena, bytes);
    Ok((memory, Segment::of(arena, 0, size)))
}

/// A memory of one thread with an arena that has given so many words. Refused: `Memory`.
fn with_room(alloc: Global, words: u64) -> Result<(Mono, ArenaId), Refusal>
    requires { 8 * words ≤ RECORD_FILE_LIMIT }
    ensures held { IfOk result (λ made. IsHeld (view_of made.0) made.1) }
    ensures given { IfOk result (λ made. given_in (view_of made.0) made.1 ≡ 8 * words) }
    ensures limit { IfOk result (λ made. (view_of made.0).limit ≡ RECORD_FILE_LIMIT) }
    ensures memory { IfErr result (λ refusal. refusal ≡ Refusal.Memory) }
{
    let mut memory = Mono::make(alloc, RECORD_FILE_LIMIT);
    let arena = match memory.open(Kind::Confined) {
        Ok(arena) => arena,
        Err(refusal) => return Err(refusal),
    };
    match memory.allot(arena, 8 * words, 8) {
        Ok(_) => Ok((memory, arena)),
        Err(refusal) => Err(refusal),
    }
}

/// Puts the bytes to the start of an arena that has given their words.
fn put(memory: &mut Mono, arena: ArenaId, bytes: &[u8])
    requires held { IsHeld (view_of memory.old) arena }
    requires given { 8 * word_count (length bytes.now) ≤ given_in (view_of memory.old) arena }
    requires limit { 8 * word_count (length bytes.now) ≤ (view_of memory.old).limit }
    ensures { StandFirst (view_of memory.new) arena bytes.now }
{
    if bytes.is_empty() {
        return;
    }
    put_words(memory, arena, bytes);
}

/// Puts the words of the bytes from the arena's first on, in one visit.
fn put_words(memory: &mut Mono, arena: ArenaId, bytes: &[u8])
    requires held { IsHeld (view_of memory.old) arena }
    requires given { 8 * word_count (length bytes.now) ≤ given_in (view_of memory.old) arena }
    requires limit { 8 * word_count (length bytes.now) ≤ (view_of memory.old).limit }
    ensures { Visited (view_of memory.old) (view_of memory.new) (DoesPutWords (view_of memory.old).caller arena 0
        (word_count (length bytes.now)) bytes.now (Ok tt)) }
{
    match memory.enter(arena) {
        Ok(()) => {}
        // The arena is alive, and its owner enters.
        Err(_) => unreachable!(),
    }
    store(memory, 0, bytes);
    memory.leave();
}

/// Stores the words of the bytes from the index `first` on, inside the arena. The last one is filled with zeros.
fn store(memory: &mut Mono, first: u64, bytes: &[u8])
    requires sound { IsSound (view_of memory.old) }
    requires reach { CanReachAll (view_of memory.old) first (word_count (length bytes.now)) }
    ensures { AfterStores (view_of memory.old) (view_of memory.new) first (words_of bytes.now) }
{
    let count = (bytes.len() + 7) / 8;
    let mut words = [0; AT_ONCE];
    let mut k = 0;
    while k < count {
        let more = (count - k).min(AT_ONCE);
        let end = (8 * (k + more)).min(bytes.len());
        words_of(&bytes[8 * k..end], &mut words[..more]);
        memory.store_words(first + k as u64, &words[..more]);
        k += more;
    }
}
