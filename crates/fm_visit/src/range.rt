ghost use Rattle.std.specs.Prelude.{◌≡◌, ◌<◌, ◌≤◌, ◌^◌, replicate, Some, Ok};
ghost use Rattle.fm_base.specs.View.{Did};
ghost use Rattle.fm_visit.specs.Acts.{HasActs};
ghost use Rattle.fm_visit.specs.Learnt.{IsIn};
ghost use Rattle.fm_visit.specs.Runs.{PutsFrom};
ghost use Rattle.fm_visit.specs.Values.{AfterFill, Reaches};

use fm_base::{ArenaId, Memory, Refusal};
use fm_lanes::read;
use fm_segment::Segment;
use fm_segment_access::{piece_width, put_inside, word_of};
use std::sync::Wait;

/// How many words are put at once.
const AT_ONCE: usize = 64;

/// Puts `byte` at each place of the segment. The caller is inside its arena.
///
/// Refused: `ReadOnly` where it has a byte. The lowest piece comes first.
pub fn fill<R: Wait, M: Memory>(rt: &R, m: &mut M, s: &Segment, byte: u8) -> Result<(), Refusal>
    requires { IsIn (M.view m.old) s.now.arena s.now }
    ensures { AfterFill (M.view m.old) (M.view m.new) s.now byte result }
{
    s.check_write(s.size())?;
    fill_all(rt, m, s.arena(), s.first(), s.size(), byte);
    Ok(())
}

/// Puts it at `size` places: whole words many at once, else piece by piece.
fn fill_all<R: Wait, M: Memory>(rt: &R, m: &mut M, arena: ArenaId, place: u64, size: u64, byte: u8)
    requires { Reaches (M.view m.old) arena place size }
    ensures did { Did (M.view m.old) (M.view m.new)
        (HasActs (M.view m.old).caller (PutsFrom arena place (replicate size byte))) }
    ensures inside { (M.view m.new).inside ≡ Some arena }
{
    let copies = [word_of(byte); AT_ONCE];
    let end = place + size;
    let mut at = place;
    while at < end {
        let words = ((end - at) / 8).min(AT_ONCE as u64);
        if at % 8 == 0 && words > 0 {
            m.store_words(at / 8, &copies[..words as usize]);
            at += 8 * words;
        } else {
            let width = piece_width(at, end);
            let part = read(copies[0], 0, width);
            put_inside(rt, m, arena, at, width, part);
            at += u64::from(width);
        }
    }
}
