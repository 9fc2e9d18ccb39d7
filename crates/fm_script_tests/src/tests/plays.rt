mod cut_off;
mod gates;
mod relay;
mod wide;

use crate::tests::compared::same;
use crate::tests::written::{asking, push, script_of};
use fm_io::{FreeGate, Gate};
use fm_script::run_script;
use fm_script_report::print_report;
use std::alloc::AllocGlobal;
use std::process::Abort;
use std::random::RandomSource;
use std::sync::Wait;
use std::thread::Threads;

/// What a run of it prints, past this gate.
fn printed_past<R: Abort + AllocGlobal + Threads + Wait + Sync + RandomSource, G: Gate>(
    rt: &R,
    text: &str,
    gate: &G,
) -> String {
    let script = script_of(rt, text);
    let report = run_script(rt, rt.alloc(), &script, gate).expect(rt, "a report");
    print_report(rt.alloc(), &report).expect(rt, "a text")
}

fn printed<R: Abort + AllocGlobal + Threads + Wait + Sync + RandomSource>(
    rt: &R,
    text: &str,
) -> String {
    printed_past(rt, text, &FreeGate)
}

/// Runs a script, which prints this.
fn plays<R: Abort + AllocGlobal + Threads + Wait + Sync + RandomSource>(
    rt: &R,
    text: &str,
    wanted: &str,
) {
    same(rt, printed(rt, text).as_str(), wanted);
}

#[test]
fn a_slot_comes_back_empty(rt: HostRuntime) {
    let text =
        "pool 1 1 8 1000 1\nfirst open a shared\nfirst alloc a s 8 8\nfirst set s long 0 7\nfirst close a\n\
        first open b shared\nfirst alloc b t 8 8\nfirst get t long 0\nfirst get s long 0\n";
    let wanted =
        "first open a shared -> ok\nfirst alloc a s 8 8 -> ok 0\nfirst set s long 0 7 -> ok\nfirst close a -> ok\n\
        first open b shared -> ok\nfirst alloc b t 8 8 -> ok 0\nfirst get t long 0 -> 0\n\
        first get s long 0 -> refused 1\nbytes b 0000000000000000\n";
    plays(&rt, text, wanted);
}

fn is_either<R: Abort>(rt: &R, found: &str, first: &str, second: &str) {
    same(rt, found == first || found == second, true);
}

#[test]
fn two_workers_add(rt: HostRuntime) {
    let text =
        "pool 1 1 8 1000 1\nfirst open a shared\nfirst alloc a s 8 8\n1 add s long 0 5\n2 add s long 0 7\n\
        last get s long 0\n";
    let got = printed(&rt, text);
    let first =
        "first open a shared -> ok\nfirst alloc a s 8 8 -> ok 0\n1 add s long 0 5 -> 0\n2 add s long 0 7 -> 5\n\
        last get s long 0 -> 12\nbytes a 0c00000000000000\n";
    let second =
        "first open a shared -> ok\nfirst alloc a s 8 8 -> ok 0\n1 add s long 0 5 -> 7\n2 add s long 0 7 -> 0\n\
        last get s long 0 -> 12\nbytes a 0c00000000000000\n";
    is_either(&rt, got.as_str(), first, second);
}

#[test]
fn a_confined_arena_is_its_owners(rt: HostRuntime) {
    let text =
        "pool 1 1 8 1 1\nfirst open a confined\nfirst alloc a s 8 8\nfirst close a\n1 get s long 0\n";
    let wanted =
        "first open a confined -> ok\nfirst alloc a s 8 8 -> ok 0\nfirst close a -> ok\n1 get s long 0 -> refused 2\n";
    plays(&rt, text, wanted);
}

/// Plays lines that stand in the order of printing: each is answered as behind its arrow, and these bytes are left.
fn plays_first<R: Abort + AllocGlobal + Threads + Wait + Sync + RandomSource>(
    rt: &R,
    pool: &str,
    rows: &str,
    bytes: &str,
) {
    let text = asking(rt, pool, rows);
    let mut wanted = String::new(rt.alloc());
    push(rt, &mut wanted, rows);
    push(rt, &mut wanted, bytes);
    plays(rt, text.as_str(), wanted.as_str());
}

/// An arena keeps the pages that a refused line got, and they come back with its close.
#[test]
fn pages_run_out(rt: HostRuntime) {
    plays_first(
        &rt,
        "pool 2 2 8 1000 2",
        "\
first open a shared -> ok
first open b shared -> ok
first alloc a s 128 8 -> ok 0
first alloc b t 8 8 -> refused 11
first alloc b t2 0 8 -> ok 0
first alloc b u 129 8 -> refused 10 0
first close a -> ok
first alloc b v 8 8 -> ok 0
",
        "bytes b 0000000000000000\n",
    );
    plays_first(
        &rt,
        "pool 2 2 8 1000 3",
        "\
first open a shared -> ok
first open b shared -> ok
first alloc a s 128 8 -> ok 0
first alloc b t 8 8 -> ok 0
first close a -> ok
",
        "bytes b 0000000000000000\n",
    );
}

/// The one page that is free goes to whoever asks first, and back where that one is closed.
#[test]
fn three_arenas_want_two_pages(rt: HostRuntime) {
    plays_first(
        &rt,
        "pool 3 2 1 1000 3",
        "\
first open a shared -> ok
first open b shared -> ok
first open c shared -> ok
first alloc a s 16 8 -> ok 0
first alloc b t 16 8 -> refused 11
first alloc c u 8 8 -> refused 11
first alloc b v 8 8 -> ok 0
first fill v 7 -> ok
first close b -> ok
first alloc c w 8 8 -> ok 0
first get w long 0 -> 0
",
        "bytes a 00000000000000000000000000000000\nbytes c 0000000000000000\n",
    );
}

/// Past its limit an arena is refused by the limit, whether pages are free or not. The last pool's pages have their bits
/// in two words.
#[test]
fn a_limit_comes_before_pages(rt: HostRuntime) {
    plays_first(
        &rt,
        "pool 1 1 1 1000 5",
        "\
first open a shared -> ok
first alloc a s 3 1 -> ok 0
first alloc a t 1 4 -> ok 4
first alloc a u 4 4 -> refused 10 5
",
        "bytes a 0000000000\n",
    );
    plays_first(
        &rt,
        "pool 2 100 8 1000 100",
        "\
first open a shared -> ok
first open b shared -> ok
first alloc a s 6400 8 -> ok 0
first alloc a x 1 1 -> refused 10 6400
first alloc b t 8 8 -> refused 11
first close a -> ok
first alloc b u 8 8 -> ok 0
",
        "bytes b 0000000000000000\n",
    );
}

#[test]
fn a_worker_finds_no_page(rt: HostRuntime) {
    let text =
        "pool 2 1 1 1 1\nfirst open a shared\nfirst alloc a s 8 8\n1 open b shared\n1 alloc b t 1 1\n1 get t byte 0\n\
        last alloc a u 1 1\n";
    let wanted =
        "first open a shared -> ok\nfirst alloc a s 8 8 -> ok 0\n1 open b shared -> ok\n1 alloc b t 1 1 -> refused 11\n\
        1 get t byte 0 -> skipped\nlast alloc a u 1 1 -> refused 10 8\nbytes a 0000000000000000\nbytes b\n";
    plays(&rt, text, wanted);
}

/// An arena is closed by polls as by visits: once, and not while it is held; of each kind, and by whom it may be.
#[test]
fn arenas_are_closed_by_polls(rt: HostRuntime) {
    plays_first(
        &rt,
        "pool 4 1 8 1 4",
        "\
first open a shared -> ok
first hold a h -> ok
first closepoll a -> refused 7 1
first unhold h -> ok
first closepoll a -> ok
first closepoll a -> refused 1
first open b confined -> ok
first open c auto -> ok
first closepoll c -> refused 8 1
first open g global -> ok
first closepoll g -> refused 8 0
first open d shared -> refused 12
first closepoll d -> skipped
1 closepoll b -> refused 2
last closepoll b -> ok
last back c -> ended
",
        "bytes g\n",
    );
}

#[test]
fn a_slot_has_one_arena(rt: HostRuntime) {
    let text = "pool 1 1 8 1 1\nfirst open a shared\nfirst close a\nfirst open b shared\n";
    let wanted =
        "first open a shared -> ok\nfirst close a -> ok\nfirst open b shared -> refused 12\n";
    plays(&rt, text, wanted);
}

#[test]
fn a_slot_has_its_last_generation(rt: HostRuntime) {
    let text =
        "pool 1 1 8 2 1\nfirst open a shared\nfirst close a\nfirst open b shared\nfirst close b\n\
        first open c shared\nfirst close c\n";
    let wanted =
        "first open a shared -> ok\nfirst close a -> ok\nfirst open b shared -> ok\nfirst close b -> ok\n\
        first open c shared -> refused 12\nfirst close c -> skipped\n";
    plays(&rt, text, wanted);
}

/// A worker's lines come in the order of its number, its names stay for the last lines, and what it holds is given
/// back.
#[test]
fn workers_names_stay(rt: HostRuntime) {
    let text =
        "pool 3 1 8 1 3\nfirst open g auto\n2 open b shared\n2 hold b h\n1 open a shared\n1 alloc a s 4 4\n\
        1 set s int 0 258\n2 unhold h\n2 close b\nlast get s int 0\nlast alive b\nlast back g\n";
    let wanted =
        "first open g auto -> ok\n1 open a shared -> ok\n1 alloc a s 4 4 -> ok 0\n1 set s int 0 258 -> ok\n\
        2 open b shared -> ok\n2 hold b h -> ok\n2 unhold h -> ok\n2 close b -> ok\nlast get s int 0 -> 258\n\
        last alive b -> false\nlast back g -> ended\nbytes a 02010000\n";
    plays(&rt, text, wanted);
}

/// A worker without lines is drawn too.
#[test]
fn sixteen_workers_play(rt: HostRuntime) {
    let text =
        "pool 1 1 8 1 1\nfirst open a shared\nfirst alloc a s 8 8\n3 add s int 4 3\n16 add s int 0 16\n\
        last get s long 0\nlast close a\n";
    let wanted =
        "first open a shared -> ok\nfirst alloc a s 8 8 -> ok 0\n3 add s int 4 3 -> 0\n16 add s int 0 16 -> 0\n\
        last get s long 0 -> 12884901904\nlast close a -> ok\n";
    plays(&rt, text, wanted);
}
