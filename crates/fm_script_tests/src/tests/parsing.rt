use crate::tests::compared::same;
use crate::tests::written::push;
use fm_base::Refusal;
use fm_script_text::parse_script;
use std::alloc::{AllocGlobal, Global};
use std::process::Abort;

/// The line at which the text is refused; 0 where it is a script.
fn refused_at(alloc: Global, text: &str) -> Option<u64> {
    match parse_script(alloc, text.as_bytes()) {
        Ok(_) => Some(0),
        Err(Refusal::BadScript(line)) => Some(line),
        Err(_) => None,
    }
}

/// A script's text, whose lines behind the head are each ended by a bar.
fn barred<R: Abort + AllocGlobal>(rt: &R, head: &str, lines: &str) -> String {
    let alloc = rt.alloc();
    let mut text = String::new(alloc);
    push(rt, &mut text, head);
    let lines = lines.replace(alloc, "|", "\n").expect(rt, "lines");
    push(rt, &mut text, lines.as_str());
    text
}

fn push_read<R: Abort + AllocGlobal>(rt: &R, text: &mut String, more: &str, at: Option<u64>) {
    push(rt, text, more);
    same(
        rt,
        (refused_at(rt.alloc(), text.as_str()), text.as_str()),
        (at, text.as_str()),
    );
}

/// A row's first word, which is a line's number, and the rest.
fn split_row(row: &str) -> (Option<u64>, &str) {
    let (at, lines) = row.split_once(' ').unwrap_or(("", row));
    (Some(at.parse().unwrap_or(u64::MAX)), lines)
}

fn reads_row<R: Abort + AllocGlobal>(rt: &R, head: &str, row: &str) {
    let (at, lines) = split_row(row);
    let text = barred(rt, head, lines);
    same(rt, (refused_at(rt.alloc(), text.as_str()), row), (at, row));
}

/// Where lines behind the head are refused, 0 where they are read; and the lines. One text, since a prover goes through
/// a table row by row.
fn reads_rows<R: Abort + AllocGlobal>(rt: &R, head: &str, rows: &str) {
    for row in rows.lines() {
        reads_row(rt, head, row);
    }
}

/// The first worked script.
const FIRST: &str =
    "pool 1 1 8 1000 1\nfirst open a shared\nfirst alloc a s 8 8\nfirst set s long 0 7\nfirst close a\n\
     first open b shared\nfirst alloc b t 8 8\nfirst get t long 0\nfirst get s long 0\n";

/// The others.
const WORKED: &str = "\
0 pool 1 1 8 1000 1|first open a shared|first alloc a s 8 8|1 add s long 0 5|2 add s long 0 7|last get s long 0|
0 pool 1 1 8 1000 1|first open a shared|first alloc a s 8 8|first set s int 0 2147483647|first set s int 4 9|\
     first add s int 0 1|first get s int 0|
0 pool 1 1 8 1000 1|first open a shared|first alloc a s 8 8|first readonly s r|first set r long 0 1|\
     first slice s u 5 4|first get u byte 0|
0 pool 1 1 8 1000 1|first open a shared|first hold a h|first hold a k|first close a|first unhold h|\
     first unhold k|first close a|first close a|
0 pool 1 1 8 1000 1|first open a shared|first hold a h|first closepoll a|first unhold h|first closepoll a|\
     first closepoll a|
0 pool 1 1 8 1000 1|first open a confined|first alloc a s 8 8|first close a|1 get s long 0|
0 pool 1 1 8 1000 1|first open g global|first close g|
0 pool 1 1 8 1000 1|first open a auto|first alloc a s 8 8|first again a h|first back a|first get s long 0|\
     first back h|first get s long 0|
0 pool 1 1 8 1000 1|first open a shared|first open b shared|first alloc b t 8 8|
0 pool 1 1 8 1000 1|first open a shared|first alloc a s 60 4|first alloc a t 8 8|first alloc a u 4 4|\
     first alloc a v 4 3|first alloc a w 0 1|
0 pool 1 1 8 1000 1|first open a shared|first alloc a s 8 8|first cas s long 0 0 9|first cas s long 0 0 3|\
     first get s long 0|first set s int-be 0 1|first get s int 0|
0 pool 1 1 8 1000 1|first open a shared|first alloc a s 8 8|first alloc a t 8 8|first fill s 255|\
     first mismatch s t|first copy s t|first slice s u 0 4|first mismatch u s|first copy s u|first alive a|
0 pool 2 2 8 1000 2|first open a shared|first open b shared|first alloc a s 128 8|first alloc b t 8 8|";

#[test]
fn reads_worked_scripts(rt: HostRuntime) {
    same(&rt, refused_at(rt.alloc(), FIRST), Some(0));
    reads_rows(&rt, "", WORKED);
}

const HEAD: &str = "pool 1 1 8 1000 1\nfirst open a shared\nfirst alloc a s 8 8\n";

/// Rows behind `HEAD`.
const BEHIND: &str = "\
0\x20
0 |#|# \u{7f}|
4 # \u{e9}|
0 first get s long 0
4 first  get s long 0|
4  first get s long 0|
4 first get s long 0 |
4 first get s long|
4 first get s long 0 0|
4 first got s long 0|
4 first get s longer 0|
4 first get s long-le 0|
4 first get s long 00|
4 first get s long +0|
0 first get s long 1099511627776|
4 first get s long 1099511627777|
4 first get s long 0\r|
0 16 get s long 0|
4 17 get s long 0|
4 0 get s long 0|
4 01 get s long 0|
0 first set s byte 0 127|
4 first set s byte 0 128|
0 first set s byte 0 -128|
4 first set s byte 0 -129|
0 first set s boolean 0 1|
4 first set s boolean 0 2|
4 first set s boolean 0 -1|
0 first set s char 0 65535|
4 first set s char 0 65536|
0 first set s short 0 -32768|
4 first set s short 0 32768|
0 first set s int 0 2147483647|
4 first set s int 0 2147483648|
0 first set s long 0 9223372036854775807|
4 first set s long 0 9223372036854775808|
0 first set s long 0 -9223372036854775808|
4 first set s long 0 -0|
0 first fill s 255|
4 first fill s 256|
4 first open 1b shared|
4 first open b share|
4 first open a shared|
4 first open s shared|
4 first alloc s t 8 8|
4 first alloc b t 8 8|
4 first get a long 0|
4 first get t long 0|1 alloc a t 8 8|
0 1 alloc a t 8 8|1 get t long 0|last get t long 0|
5 1 alloc a t 8 8|2 get t long 0|
5 1 get s long 0|first get s long 0|
5 last get s long 0|1 get s long 0|
5 first hold a h|1 unhold h|
0 first hold a h|last unhold h|
6 first hold a h|first unhold h|first unhold h|
5 first hold a h|first hold a k|first unhold h|
4 first again a h|
6 first open b auto|first back b|first again b h|
0 first open b auto|first back b|first alive b|
5 first open b auto|first again b h|first back b|
0 first alloc a t 1099511627776 1099511627776|
4 first alloc a t 1099511627777 8|
4 first alloc a t 8 1099511627777|
0 first slice s t 1099511627776 1099511627776|
4 first slice s t 1099511627777 8|
4 first slice s t 8 1099511627777|
0 first set s int 0 -2147483648|
4 first set s int 0 -2147483649|
4 first cas s byte 0 0 128|
4 first cas s byte 0 128 0|
5 first hold a h|first back h|
5 first open b auto|first unhold b|
5 first open b auto|1 again b h|
5 first open b auto|1 back b|
0 first open b auto|last again b h|last back b|last back h|
4 first open b auto|
0 1 hold a h|1 unhold h|
5 1 hold a h|last unhold h|
0 # a||first get s long 0||#
0 first open aaaaaaaaaaaaaaaaaaaaaaaaaaaaaaaaaaaaaaaaaaaaaaaaaaaaaaaaaaaaaaaa shared
4 first open aaaaaaaaaaaaaaaaaaaaaaaaaaaaaaaaaaaaaaaaaaaaaaaaaaaaaaaaaaaaaaaaa shared
5 1 alloc a t 8 8|2 alloc a t 8 8|
5 last get s long 0|first get s long 0|
4 first hold a s|first unhold s|
5 first hold a h|first alive h|
5 first hold a h|first get h long 0|
4 first unhold s|
4 first unhold a|
4 first back a|
6 first open b auto|first again b h|first alloc h t 8 8|
5 first open b auto|first get b long 0|
6 first open b auto|first back b|first back b|
7 first open b auto|first again b h|first back h|first again h k|
4 first slice a t 0 4|
4 first readonly a t|
4 first fill a 0|
4 first copy s a|
4 first copy a s|
4 first mismatch s a|
4 first alive s|
4 first close s|
4 first closepoll s|
4 first closepoll b|
4 first closepolls a|
4 first close poll a|
4 first hold s h|
4 last open b auto|
5 # a|1 hold a h|
4 first hold a h|1 hold a k|1 unhold k|
6 1 hold a h|1 unhold h|2 hold a k|
4 first hold a h
4 first got s long 0
4 first set s char 0 -1|
0 first set s short 0 32767|
4 first set s short 0 -32769|
4 first set s short-be 0 32768|
4 first set s long 0 -9223372036854775809|
4 first add s byte 0 128|
4 first add s long 1099511627777 0|
4 first cas s long 1099511627777 0 0|
4 first set s long 1099511627777 0|
4 first fill s -1|
4 First get s long 0|
4 -1 get s long 0|
4 first\tget s long 0|
4 first|
4 first get|";

#[test]
fn refuses_the_first_line_that_breaks_a_rule(rt: HostRuntime) {
    reads_rows(&rt, HEAD, BEHIND);
}

const POOLS: &str = "\
1\x20
2 |
2 #
3 #||
1 # \u{e9}|
1 first open a shared|
0 |pool 1 1 8 1 2|
2 |pool 1 2 8 1 1|
1 pool 2 2 8 1000 1|
0 pool 2 2 8 1000 2|
0 pool 2 2 8 1000 3|
0 pool 2 2 8 1000 5|
0 pool 1 1 8 1 65|
0 pool 1 1 8 1 4096|
1 pool 1 1 8 1 4097|
1 pool 1 1 8 1|
1 pool 1 1 8 1 1 1|
0 pool 1 1 8 1 1
0 pool 64 1 65536 4294967295 64|
1 pool 64 1 65537 1 64|
0 pool 64 4096 1024 4294967295 4096|
1 pool 64 4096 1025 4294967295 4096|
1 pool 65 1 8 1 65|
0 pool 1 4096 8 1 4096|
1 pool 1 4097 8 1 4097|
0 pool 1 1 1048576 1 1|
1 pool 1 1 1048577 1 1|
1 pool 01 1 8 1 1|
1 Pool 1 1 8 1 1|
1 pool 0 1 8 1 0|
1 pool 1 1 0 1 1|
1 pool 1 1 8 0 1|
1 pool 1 1 8 4294967296 1|
2 pool 1 1 8 1 1|pool 1 1 8 1 1|";

#[test]
fn refuses_pools(rt: HostRuntime) {
    reads_rows(&rt, "", POOLS);
}

/// Lines of each command behind others: a slash stands before their last word.
const WORDS: &str = "\
first open b/ shared
first alloc a t 8/ 8
first slice s t 0/ 4
first readonly s/ t
first get s long/ 0
first set s long 0/ 7
first add s long 0/ 7
first cas s long 0 7/ 8
first fill s/ 255
first copy s/ s
first mismatch s/ s
first alive/ a
first hold a h|first unhold/ h
first open b auto|first again b h|first back b|first back/ h
first open b auto|first back/ b
first close/ a
last close/ a
first closepoll/ a
last closepoll/ a";

/// Lines are refused without their last word, and at the same line with that word twice.
fn wants_last_word<R: Abort + AllocGlobal>(rt: &R, row: &str) {
    let (line, word) = row.split_once('/').unwrap_or((row, ""));
    let mut text = barred(rt, HEAD, line);
    let less = refused_at(rt.alloc(), text.as_str());
    same(rt, (less.unwrap_or(0) > 0, row), (true, row));
    push_read(rt, &mut text, word, Some(0));
    push_read(rt, &mut text, word, less);
}

#[test]
fn refuses_a_word_less_or_more(rt: HostRuntime) {
    for row in WORDS.lines() {
        wants_last_word(&rt, row);
    }
}

/// The first worked script's lines: a slash stands before the last byte.
const CUT: &str = "\
1 pool 1 1 8 1000 /1
2 first open a share/d
3 first alloc a s 8 /8
4 first set s long 0 /7
5 first close /a
6 first open b share/d
7 first alloc b t 8 /8
8 first get t long /0
9 first get s long /0";

/// A line is refused without its last byte, and read with it and where it is ended.
fn reads_cut<R: Abort + AllocGlobal>(rt: &R, text: &mut String, row: &str) {
    let (at, line) = split_row(row);
    let (head, last) = line.split_once('/').unwrap_or((line, ""));
    push_read(rt, text, head, at);
    push_read(rt, text, last, Some(0));
    push_read(rt, text, "\n", Some(0));
}

#[test]
fn reads_prefixes(rt: HostRuntime) {
    let mut text = String::new(rt.alloc());
    for row in CUT.lines() {
        reads_cut(&rt, &mut text, row);
    }
    same(&rt, text.as_str(), FIRST);
}
