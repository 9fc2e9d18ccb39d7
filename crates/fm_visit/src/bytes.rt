ghost use Rattle.std.specs.Prelude.{◌≡◌, ◌<◌, ◌≤◌, ◌^◌, length, Some, IfErr};
ghost use Rattle.fm_base.specs.View.{Did};
ghost use Rattle.fm_segment_access.specs.Ranges.{putting};
ghost use Rattle.fm_visit.specs.Acts.{HasActs};
ghost use Rattle.fm_visit.specs.Learnt.{IsIn};
ghost use Rattle.fm_visit.specs.Runs.{GetsFrom, PutsFrom};
ghost use Rattle.fm_visit.specs.Values.{AfterGetBytes, AfterPutBytes, GetsNext, PutsNext, Reaches};

use crate::number::get_piece;
use byteorder::{ByteOrder, LittleEndian};
use fm_base::{ArenaId, Memory, Refusal};
use fm_segment::Segment;
use fm_segment_access::{piece_width, put_inside, store_words};
use std::sync::Wait;

/// How many words are read before their bytes are put into the slice.
const AT_ONCE: usize = 64;

/// Reads the bytes from `offset` on into the slice, as many as it has. The caller is inside the segment's arena.
///
/// Refused: `Bounds`. A refused call leaves the slice as it was. The lowest comes first: fewer than eight bytes up to a
/// word's start, all whole words, and what is left behind them.
pub fn get_bytes<M: Memory>(
    m: &mut M,
    s: &Segment,
    offset: u64,
    into: &mut [u8],
) -> Result<(), Refusal>
    requires { IsIn (M.view m.old) s.now.arena s.now }
    ensures got { AfterGetBytes (M.view m.old) (M.view m.new) s.now offset into.new result }
    ensures same { IfErr result (λ _. into.new ≡ into.old) }
    ensures size { length into.new ≡ length into.old }
{
    let slice = s.as_slice(offset, into.len() as u64)?;
    get_all(m, s.arena(), slice.first(), into);
    Ok(())
}

/// Reads them, piece by piece.
fn get_all<M: Memory>(m: &mut M, arena: ArenaId, place: u64, into: &mut [u8])
    requires { Reaches (M.view m.old) arena place (length into.old) }
    ensures did { Did (M.view m.old) (M.view m.new)
        (HasActs (M.view m.old).caller (GetsFrom arena place into.new)) }
    ensures inside { (M.view m.new).inside ≡ Some arena }
    ensures size { length into.new ≡ length into.old }
{
    let end = place + into.len() as u64;
    let mut at = place;
    while at < end {
        at += get_next(m, arena, at, &mut into[(at - place) as usize..]) as u64;
    }
}

/// Reads the next bytes: from a word's start on whole words, else a piece. Answers how many.
fn get_next<M: Memory>(m: &mut M, arena: ArenaId, at: u64, into: &mut [u8]) -> usize
    requires reach { Reaches (M.view m.old) arena at (length into.old) }
    requires some { 0 < length into.old }
    ensures did { Did (M.view m.old) (M.view m.new)
        (HasActs (M.view m.old).caller (GetsNext arena at into.new result)) }
    ensures inside { (M.view m.new).inside ≡ Some arena }
    ensures some { 0 < result }
    ensures within { result ≤ length into.old }
    ensures size { length into.new ≡ length into.old }
{
    let words = (into.len() / 8).min(AT_ONCE);
    if at % 8 == 0 && words > 0 {
        let mut found = [0; AT_ONCE];
        m.load_words(at / 8, &mut found[..words]);
        LittleEndian::write_u64_into(&found[..words], &mut into[..8 * words]);
        8 * words
    } else {
        let width = piece_width(at, at + into.len() as u64);
        let part = get_piece(m, arena, at, width);
        LittleEndian::write_uint(into, part, width as usize);
        width as usize
    }
}

/// Puts `bytes` from an offset on. Other bytes stay. The caller is inside the segment's arena.
///
/// Refused, in this order: `ReadOnly` where there is a byte, `Bounds`. A refused call puts nothing. The lowest comes
/// first: fewer than eight bytes up to a word's start, all whole words, and what is left behind them.
pub fn put_bytes<R: Wait, M: Memory>(
    rt: &R,
    m: &mut M,
    s: &Segment,
    offset: u64,
    bytes: &[u8],
) -> Result<(), Refusal>
    requires { IsIn (M.view m.old) s.now.arena s.now }
    ensures { AfterPutBytes (M.view m.old) (M.view m.new) s.now offset bytes.now result }
{
    s.check_put(offset, bytes.len() as u64)?;
    put_all(rt, m, s.arena(), s.first() + offset, bytes);
    Ok(())
}

/// Puts them, piece by piece.
fn put_all<R: Wait, M: Memory>(rt: &R, m: &mut M, arena: ArenaId, place: u64, bytes: &[u8])
    requires { Reaches (M.view m.old) arena place (length bytes.now) }
    ensures did { Did (M.view m.old) (M.view m.new)
        (HasActs (M.view m.old).caller (PutsFrom arena place bytes.now)) }
    ensures inside { (M.view m.new).inside ≡ Some arena }
{
    let end = place + bytes.len() as u64;
    let mut at = place;
    while at < end {
        at += put_next(rt, m, arena, at, &bytes[(at - place) as usize..]) as u64;
    }
}

/// Puts the next bytes: from a word's start on all whole words, else a piece. Answers how many.
fn put_next<R: Wait, M: Memory>(rt: &R, m: &mut M, arena: ArenaId, at: u64, bytes: &[u8]) -> usize
    requires reach { Reaches (M.view m.old) arena at (length bytes.now) }
    requires some { 0 < length bytes.now }
    ensures did { Did (M.view m.old) (M.view m.new)
        (HasActs (M.view m.old).caller (PutsNext arena (putting at bytes.now) result)) }
    ensures inside { (M.view m.new).inside ≡ Some arena }
    ensures some { 0 < result }
    ensures within { result ≤ length bytes.now }
{
    let words = bytes.len() / 8;
    // Any memory is sound, which its calls alone tell.
    m.caller();
    if at % 8 == 0 && words > 0 {
        store_words(m, at / 8, words, bytes);
        8 * words
    } else {
        let width = piece_width(at, at + bytes.len() as u64);
        let part = LittleEndian::read_uint(bytes, width as usize);
        put_inside(rt, m, arena, at, width, part);
        width as usize
    }
}
