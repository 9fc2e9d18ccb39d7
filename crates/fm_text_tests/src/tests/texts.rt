ghost use Rattle.fm_mono.specs.Shown.{view_of};
ghost use Rattle.fm_segment.specs.Learnt.{CanUse};

use crate::tests::calls::{fresh, gets, same, sets};
use fm_base::Refusal;
use fm_mono::Mono;
use fm_segment::Segment;
use std::alloc::Global;
use std::process::Abort;
use std::sync::Wait;

/// Texts that end before, at and behind a word's end.
const TEXTS: [&str; 9] = [
    "",
    "a",
    "abcdef",
    "abcdefg",
    "abcdefgh",
    "abcdefghi",
    "abcdefghijklmn",
    "abcdefghijklmno",
    "abcdefg\u{e9}\u{20ac}\u{1f600}",
];

/// Sets a text at each place of a word among bytes that are 255, and gets it.
fn at_each_offset<R: Abort + Wait>(rt: &R, m: &mut Mono, alloc: Global, s: &Segment, text: &str)
    requires { CanUse (view_of m.old) s.now }
    ensures { CanUse (view_of m.new) s.now }
{
    for offset in 0..9u64 {
        same(rt, s.fill(rt, m, 255), Ok(()));
        gets(rt, m, alloc, s, offset, Err(Refusal::NoZero));
        sets(rt, m, s, offset, text, Ok(()));
        gets(rt, m, alloc, s, offset, Ok(text));
    }
}

#[test]
fn a_text_is_got_at_each_offset(rt: HostRuntime) {
    let mut m = Mono::make(rt.alloc(), 64);
    let s = fresh(&rt, &mut m, 32);
    for text in TEXTS {
        at_each_offset(&rt, &mut m, rt.alloc(), &s, text);
    }
}

/// What the bytes up to a 0 are, at the front of a segment.
fn texts_of<R: Abort + Wait>(
    rt: &R,
    m: &mut Mono,
    alloc: Global,
    s: &Segment,
    bytes: &[u8],
    answer: Result<&str, Refusal>,
)
    requires { CanUse (view_of m.old) s.now }
    ensures { CanUse (view_of m.new) s.now }
{
    same(rt, s.put_bytes(rt, m, 0, bytes), Ok(()));
    gets(rt, m, alloc, s, 0, answer);
}

#[test]
fn bytes_that_are_no_text_are_refused(rt: HostRuntime) {
    let mut m = Mono::make(rt.alloc(), 64);
    let s = fresh(&rt, &mut m, 24);
    let rows: [(&[u8], Result<&str, Refusal>); 13] = [
        (b"\0ab", Ok("")),
        (b"ab\0\xff", Ok("ab")),
        (b"abcdefgh\0\xff", Ok("abcdefgh")),
        (b"abcdef\xc3\xa9\0", Ok("abcdef\u{e9}")),
        (b"abcdefg\xc3\xa9\0", Ok("abcdefg\u{e9}")),
        (b"\xff\0", Err(Refusal::NotText(0))),
        (b"abcd\xe2\x82\0", Err(Refusal::NotText(4))),
        (b"\xc0\xaf\0", Err(Refusal::NotText(0))),
        (b"ab\xed\xa0\x80\0", Err(Refusal::NotText(2))),
        (b"ab\xf4\x90\x80\x80\0", Err(Refusal::NotText(2))),
        (b"abcdefghij\xff\0", Err(Refusal::NotText(10))),
        (b"abcdefg\xc3\0", Err(Refusal::NotText(7))),
        (b"abcdefghijklmnopqrstuvwx", Err(Refusal::NoZero)),
    ];
    for (bytes, answer) in rows {
        texts_of(&rt, &mut m, rt.alloc(), &s, bytes, answer);
    }
}
