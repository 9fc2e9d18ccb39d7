ghost use Rattle.std.specs.Prelude.{◌≡◌, ◌*◌, ◌%◌, ◌≤◌, length};
ghost use Rattle.fm_base.specs.Does.{CanReachAll};
ghost use Rattle.fm_base.specs.Learnt.{AfterStores};
ghost use Rattle.fm_base.specs.View.{IsSound};
ghost use Rattle.fm_segment_access.specs.Learnt.{CanTouch, Visited};
ghost use Rattle.fm_segment_access.specs.Runs.{DoesPutWords};
ghost use Rattle.fm_base_bytes.specs.Words.{words_from};

use byteorder::{ByteOrder, LittleEndian};
use fm_base::{ArenaId, Memory, OrRefused};

/// How many words are made of bytes before they are stored.
const AT_ONCE: usize = 64;

/// Puts the first `count` words of `bytes` at `place`, in one visit.
///
/// Refused, in this order: `WrongThread`, `Closed`. A refused call puts nothing.
pub fn put_words<M: Memory>(
    m: &mut M,
    arena: ArenaId,
    place: u64,
    count: usize,
    bytes: &[u8],
) -> OrRefused<()>
    requires touch { CanTouch (M.view m.old) arena place (8 * count) }
    requires even { place % 8 ≡ 0 }
    requires whole { 8 * count ≤ length bytes.now }
    ensures { Visited (M.view m.old) (M.view m.new)
        (DoesPutWords (M.view m.old).caller arena place count bytes.now result) }
{
    m.enter(arena)?;
    store_words(m, place / 8, count, bytes);
    m.leave();
    Ok(())
}

/// Stores the first `count` words of `bytes`, the first of them at the index `first`, inside the arena.
pub fn store_words<M: Memory>(m: &mut M, first: u64, count: usize, bytes: &[u8])
    requires sound { IsSound (M.view m.old) }
    requires reach { CanReachAll (M.view m.old) first count }
    requires whole { 8 * count ≤ length bytes.now }
    ensures { AfterStores (M.view m.old) (M.view m.new) first (words_from count bytes.now) }
{
    let mut words = [0; AT_ONCE];
    let mut k = 0;
    while k < count {
        let more = (count - k).min(AT_ONCE);
        LittleEndian::read_u64_into(&bytes[8 * k..8 * (k + more)], &mut words[..more]);
        m.store_words(first + k as u64, &words[..more]);
        k += more;
    }
}
