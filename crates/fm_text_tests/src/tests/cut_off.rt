ghost use Rattle.std.specs.Prelude.{◌≡◌};
ghost use Rattle.fm_rule_calls.specs.Told.{view_of_pass};
ghost use Rattle.fm_segment.specs.Learnt.{CanUse};
ghost use Rattle.fm_arena.specs.Shares.{CanShare};

use crate::tests::calls::{gets, same, sets};
use crate::tests::pools::{both, made, started, tell};
use fm_arena::{Arena, Shared};
use fm_arena_braided::{Braided, Turn};
use fm_base::{Kind, Memory, Refusal};
use fm_lanes::{Value, ValueKind};
use fm_layout::Layout;
use fm_rule::{Pass, Pool};
use fm_segment::Segment;
use fm_text::allocate_text;
use std::marker::Model;
use std::process::Abort;
use std::sync::Wait;

/// A segment's three longs, or why they can't be read.
type Longs = [Result<Value, Refusal>; 3];

/// Another pass that closes a segment's arena at the turn of one number, once it has read the segment's longs.
#[derive(Drop)]
struct Closer<'a, H: Wait> {
    rt: &'a H,
    theirs: Shared<'a>,
    s: Segment,
    at: u64,
    found: Option<Longs>,
}

impl<'a, H: Wait> Model for Closer<'a, H> {
    ghost Value = { Unit };

    ghost view = { λ c. tt };

    ghost invariant = { λ c. CanUse (view_of_pass c.theirs) c.s };
}

impl<'a, H: Wait> Turn for Closer<'a, H> {
    ghost turns = { λ old at new. Unit };

    fn turn(&mut self, at: u64) {
        if at == self.at {
            self.found = Some(longs_of(&mut self.theirs, &self.s));
            let _ = self.theirs.close(self.rt, self.s.arena());
        }
    }
}

/// The longs of a segment.
fn longs_of(m: &mut Shared, s: &Segment) -> Longs
    requires { CanUse (view_of_pass m.old) s.now }
    ensures { CanUse (view_of_pass m.new) s.now }
{
    let long = Layout::value(ValueKind::Long);
    [s.get(m, &long, 0), s.get(m, &long, 8), s.get(m, &long, 16)]
}

/// A memory whose other pass closes an arena at the turn `at`; that arena, and 24 bytes with a text from the offset 4
/// on.
fn scene<'a, R: Abort + Wait>(
    rt: &'a R,
    pool: &'a Pool,
    pass: Pass,
    at: u64,
    text: &str,
) -> (Braided<Shared<'a>, Closer<'a, R>>, Arena, Segment)
    requires { CanShare pool.now pass }
    ensures known { CanUse (view_of_pass result.0.memory) result.2 }
    ensures arena { result.2.arena ≡ result.1.id }
{
    let (mut ours, mut theirs) = both(rt, pool, pass);
    let (arena, s) = started(rt, &mut ours, Kind::Shared);
    tell(&mut ours, &mut theirs, &s);
    sets(rt, &mut ours, &s, 4, text, Ok(()));
    let closer = Closer {
        rt,
        theirs,
        s,
        at,
        found: None,
    };
    (Braided::new(ours, closer), arena, s)
}

/// What the closer found, where it came.
fn found_longs(longs: [i64; 3]) -> Option<Longs> {
    let [first, second, third] = longs;
    Some([
        Ok(Value::Long(first)),
        Ok(Value::Long(second)),
        Ok(Value::Long(third)),
    ])
}

/// Bytes 4 to 24: three pieces, the last of which ends with the 0.
const TEXT: &str = "abcdefghijklmnopqrs";

/// The arena is closed before each piece, and behind the last one. What was put before stands.
#[test]
fn a_text_that_is_set_is_cut_off_before_each_piece(rt: HostRuntime) {
    for (at, answer, longs) in [
        (0, Err(Refusal::Closed), found_longs([0, 0, 0])),
        (
            3,
            Err(Refusal::Closed),
            found_longs([0x6463_6261 << 32, 0, 0]),
        ),
        (
            6,
            Err(Refusal::Closed),
            found_longs([0x6463_6261 << 32, 0x6c6b_6a69_6867_6665, 0]),
        ),
        (9, Ok(()), None),
    ] {
        let (pool, pass) = made(&rt);
        let (mut m, _, s) = scene(&rt, &pool, pass, at, "");
        sets(&rt, &mut m, &s, 4, TEXT, answer);
        let (_, closer) = m.into_parts();
        same(&rt, (closer.found, at), (longs, at));
    }
}

/// Behind the piece with the 0 the arena isn't entered.
#[test]
fn a_text_that_is_got_is_cut_off_before_each_piece(rt: HostRuntime) {
    for (at, text, answer) in [
        (0, TEXT, Err(Refusal::Closed)),
        (3, TEXT, Err(Refusal::Closed)),
        (6, TEXT, Err(Refusal::Closed)),
        (9, TEXT, Ok(TEXT)),
        (3, "abc", Ok("abc")),
        (3, "abcd", Err(Refusal::Closed)),
        (6, "abcd", Ok("abcd")),
    ] {
        let (pool, pass) = made(&rt);
        let (mut m, _, s) = scene(&rt, &pool, pass, at, text);
        gets(&rt, &mut m, rt.alloc(), &s, 4, answer);
        let _ = m.into_parts();
    }
}

/// The bytes are given before the first turn.
#[test]
fn a_text_that_is_allocated_is_cut_off(rt: HostRuntime) {
    let (pool, pass) = made(&rt);
    let (mut m, arena, _) = scene(&rt, &pool, pass, 0, "");
    let none = allocate_text(&rt, &mut m, &arena, "hi");
    same(&rt, none, Err(Refusal::Closed));
    let _ = m.into_parts();
}
