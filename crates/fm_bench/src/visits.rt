use fm_base::{Kind, Memory, Refusal};
use fm_mono::Mono;
use std::alloc::Global;
use std::sync::Wait;

/// The bytes of the arena that is visited.
const SIZE: u64 = 65_536;

/// Visits words of an arena, so often, and answers them joined by exclusive or; what was found says which is next.
///
/// Each visit enters the arena, loads one word and leaves. Word w holds w times `count`, wrapping.
pub fn visits<R: Wait>(rt: &R, alloc: Global, count: u64) -> Result<u64, Refusal> {
    let mut memory = Mono::make(alloc, SIZE);
    let arena = memory.open_arena(rt, Kind::Shared)?;
    memory.allocate(rt, arena, SIZE, 8)?;
    memory.enter(arena)?;
    for word in 0..SIZE / 8 {
        memory.store(word, word.wrapping_mul(count));
    }
    memory.leave();
    let mut joined: u64 = 0;
    for turn in 0..count {
        memory.enter(arena)?;
        joined ^= memory.load(joined.wrapping_add(turn) % (SIZE / 8));
        memory.leave();
    }
    Ok(joined)
}
