ghost use Rattle.std.specs.Prelude.{◌≡◌, None, All};
ghost use Rattle.fm_script.specs.Runs.{IsWritten};
ghost use Rattle.fm_script_text.specs.Syntax.{IsSpelled};

use crate::tests::compared::same;
use crate::tests::written::{asking, push, script_of};
use fm_arena::Shared;
use fm_io::{AtGate, FreeGate};
use fm_rule::Pool;
use fm_script_lines::{Numbers, Reply, Table, count_lines, in_order, play};
use fm_script_text::{Line, Script, Who};
use std::alloc::AllocGlobal;
use std::process::Abort;
use std::random::RandomSource;
use std::sync::Wait;

fn names_of<R: Abort + AllocGlobal>(rt: &R, lines: &[Line]) -> Numbers {
    let order = in_order(rt.alloc(), lines, 0).expect(rt, "an order");
    Numbers::of_lines(rt.alloc(), order.lines.as_slice()).expect(rt, "names")
}

/// What a pass answers to the first lines of a script.
fn run<R: Abort + AllocGlobal + Wait + RandomSource>(
    rt: &R,
    m: &mut Shared,
    script: &Script,
) -> Vec<Reply>
    requires outside { m.old.inside ≡ None }
    requires spelled { All (λ l. IsSpelled l.command) script.now.lines }
{
    let alloc = rt.alloc();
    let lines = script.lines();
    let names = names_of(rt, lines);
    let count = count_lines(lines, Who::First);
    let mut table = Table::new(alloc, &names, &[], 0, count).expect(rt, "room");
    let mut replies = Vec::with_capacity(alloc, count).expect(rt, "room");
    play(
        rt,
        alloc,
        m,
        &mut table,
        lines,
        Who::First,
        &mut replies,
        &AtGate {
            gate: &FreeGate,
            worker: 1,
        },
    )
    .expect(rt, "no want of memory");
    let mut others = Vec::with_capacity(alloc, count).expect(rt, "room");
    table.settle(rt, m, &mut others);
    replies
}

fn printed<R: Abort + AllocGlobal>(rt: &R, reply: &Reply) -> String {
    format!(in rt.alloc(); "{reply:?}").expect(rt, "a text")
}

/// A line with its reply behind an arrow.
fn push_row<R: Abort + AllocGlobal>(rt: &R, text: &mut String, line: &Line, reply: &Reply) {
    let reply = printed(rt, reply);
    push(rt, text, line.text.as_str());
    push(rt, text, " -> ");
    push(rt, text, reply.as_str());
    push(rt, text, "\n");
}

fn answered<R: Abort + AllocGlobal>(rt: &R, lines: &[Line], replies: &[Reply]) -> String {
    let mut text = String::new(rt.alloc());
    for (line, reply) in lines.iter().zip(replies.iter()) {
        push_row(rt, &mut text, line, reply);
    }
    text
}

/// What the first lines of a script are answered in a pool of its own.
fn replies<R: Abort + AllocGlobal + Wait + RandomSource>(rt: &R, script: &Script) -> Vec<Reply>
    requires written { IsWritten script.now }
    requires spelled { All (λ l. IsSpelled l.command) script.now.lines }
{
    let (pool, pass) = Pool::make(rt.alloc(), script.shape()).expect(rt, "words");
    let mut m = Shared::new(&pool, pass);
    run(rt, &mut m, script)
}

/// Plays first lines in a pool, each of which is answered as behind its arrow.
fn plays<R: Abort + AllocGlobal + Wait + RandomSource>(rt: &R, pool: &str, rows: &str) {
    let script = script_of(rt, asking(rt, pool, rows).as_str());
    let replies = replies(rt, &script);
    same(rt, replies.len(), script.lines().len());
    let found = answered(rt, script.lines(), replies.as_slice());
    same(rt, found.as_str(), rows);
}

const VALUES: &str = "\
first open a shared -> Fine
first alloc a s 8 8 -> Place(0)
first set s int 0 2147483647 -> Fine
first set s int 4 9 -> Fine
first add s int 0 1 -> Number(2147483647)
first get s int 0 -> Number(-2147483648)
first get s int 4 -> Number(9)
first cas s long 0 0 9 -> Number(40802189312)
first set s int-be 0 1 -> Fine
first get s int 0 -> Number(16777216)
";

#[test]
fn values_are_read_and_put(rt: HostRuntime) {
    plays(&rt, "pool 1 1 8 1 1", VALUES);
}

const REFUSED: &str = "\
first open a shared -> Fine
first alloc a s 8 8 -> Place(0)
first get s long 1 -> Refused(Bounds)
first get s int 1 -> Refused(Misaligned)
first readonly s r -> Fine
first set r long 0 1 -> Refused(ReadOnly)
first add s short 0 1 -> Refused(Unsupported)
first slice s u 5 4 -> Refused(Bounds)
first get u byte 0 -> Skipped
first open b shared -> Refused(NoSlot)
first alloc b t 8 8 -> Skipped
first alloc a v 4 3 -> Refused(BadAlignment)
first alloc a w 60 4 -> Refused(NoRoom(8))
";

#[test]
fn refused_lines_have_no_name(rt: HostRuntime) {
    plays(&rt, "pool 1 1 8 1 1", REFUSED);
}

const GIVEN_BACK: &str = "\
first open a shared -> Fine
first hold a h -> Fine
first hold a k -> Fine
first close a -> Refused(Held(2))
first unhold h -> Fine
first unhold k -> Fine
first close a -> Fine
first alive a -> Truth(false)
first closepoll a -> Refused(Closed)
first open b auto -> Fine
first alloc b s 8 8 -> Place(0)
first again b j -> Fine
first back b -> Kept
first get s long 0 -> Number(0)
first back j -> Ended
first get s long 0 -> Refused(Closed)
first open g global -> Fine
first close g -> Refused(CannotClose(Global))
first closepoll g -> Refused(CannotClose(Global))
";

#[test]
fn holds_and_handles_are_given_back(rt: HostRuntime) {
    plays(&rt, "pool 3 1 8 1 3", GIVEN_BACK);
}

const SEGMENTS: &str = "\
first open a confined -> Fine
first alloc a s 8 8 -> Place(0)
first alloc a t 8 8 -> Place(8)
first fill s 255 -> Fine
first mismatch s t -> Number(0)
first copy s t -> Fine
first mismatch s t -> Number(-1)
first slice s u 0 4 -> Fine
first mismatch u s -> Number(4)
first copy s u -> Refused(Bounds)
first close a -> Fine
first copy s t -> Refused(Closed)
";

#[test]
fn segments_are_filled_copied_and_compared(rt: HostRuntime) {
    plays(&rt, "pool 1 1 8 1 1", SEGMENTS);
}
