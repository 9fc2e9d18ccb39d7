ghost use Rattle.std.specs.Prelude.{◌<◌, ◌≤◌, length, IfOk};
ghost use Rattle.fm_segment_access.specs.Learnt.{CanTouch, AfterPutAll, Visited};
ghost use Rattle.fm_segment_access.specs.Ranges.{putting};
ghost use Rattle.fm_segment_access.specs.Runs.{DoesPutNext};

use crate::piece::{piece_width, put_piece};
use crate::words::put_words;
use byteorder::{ByteOrder, LittleEndian};
use fm_base::{ArenaId, Memory, OrRefused};
use std::sync::Wait;

/// Puts `bytes` from `place` on. Other bytes stay.
///
/// All whole words are put in one visit, what lies before and behind them piece by piece.
/// Refused, in this order: `WrongThread`, `Closed`; where there are none it makes no visit and isn't refused.
/// Where a later visit is refused, what was put before it stays put.
#[tactic(auto, using(crate::proofs::Putting::put_starts))]
pub fn put_bytes<R: Wait, M: Memory>(
    rt: &R,
    m: &mut M,
    arena: ArenaId,
    place: u64,
    bytes: &[u8],
) -> OrRefused<()>
    requires { CanTouch (M.view m.old) arena place (length bytes.now) }
    ensures { AfterPutAll (M.view m.old) (M.view m.new) arena place bytes.now result }
{
    if bytes.is_empty() {
        return Ok(());
    }
    let end = place + bytes.len() as u64;
    let mut at = place;
    while at < end {
        at += put_next(rt, m, arena, at, &bytes[(at - place) as usize..])? as u64;
    }
    Ok(())
}

/// Puts the next bytes in one visit: from a word's start on all whole words, else a piece. Answers how many.
fn put_next<R: Wait, M: Memory>(
    rt: &R,
    m: &mut M,
    arena: ArenaId,
    at: u64,
    bytes: &[u8],
) -> OrRefused<usize>
    requires touch { CanTouch (M.view m.old) arena at (length bytes.now) }
    requires some { 0 < length bytes.now }
    ensures did { Visited (M.view m.old) (M.view m.new)
        (DoesPutNext (M.view m.old).caller arena (putting at bytes.now) result) }
    ensures some { IfOk result (λ n. 0 < n) }
    ensures within { IfOk result (λ n. n ≤ length bytes.now) }
{
    let words = bytes.len() / 8;
    if at % 8 == 0 && words > 0 {
        put_words(m, arena, at, words, bytes)?;
        Ok(8 * words)
    } else {
        let width = piece_width(at, at + bytes.len() as u64);
        put_piece(
            rt,
            m,
            arena,
            at,
            width,
            LittleEndian::read_uint(bytes, width as usize),
        )?;
        Ok(width as usize)
    }
}
