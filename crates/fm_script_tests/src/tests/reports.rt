ghost use Rattle.std.specs.Prelude.{◌≡◌, ◌≤◌, length, true};
ghost use Rattle.fm_base.specs.Arenas.{has_arena};
ghost use Rattle.fm_rule_calls.specs.Kept.{Lasts};
ghost use Rattle.fm_arena.specs.Shares.{CanShare};
ghost use Rattle.fm_gate.specs.Needs.{CanVisit, IsInside, IsOutside};
ghost use Rattle.fm_rule_facts.specs.Views.{IsKnown, given_of};
ghost use Rattle.fm_rule.specs.GivenBytes.{state_of};

use crate::tests::compared::same;
use crate::tests::written::script_of;
use fm_base::{ArenaId, Caller, Kind, Refusal};
use fm_close::close;
use fm_gate::{a_crew_stands, allocate, enter, leave, open_arena, store};
use fm_rule::{Finished, Pass, Pool};
use fm_script_lines::{Numbers, Reply};
use fm_script_report::{Report, ReportLine, print_report, report_lines};
use fm_script_text::{Line, Script};
use fm_words::Shape;
use std::alloc::AllocGlobal;
use std::process::Abort;
use std::sync::Wait;

/// The arenas of a pool that is finished.
#[derive(Clone, Copy)]
struct Arenas {
    stocked: ArenaId,
    bare: ArenaId,
    ended: ArenaId,
}

/// Stores two bytes that aren't 0.
fn write(pool: &Pool, pass: &mut Pass, a: ArenaId)
    requires inside { IsInside pool.now pass.old a }
    requires given { 8 ≤ given_of pass.old a }
    ensures inside { IsInside pool.now pass.new a }
    ensures lasts { Lasts pass.old pass.new }
{
    store(pool, pass, 0, 0x0000_0000_00ab_000f);
}

/// Opens an arena of eight bytes.
fn stocked<R: Abort + Wait>(rt: &R, pool: &Pool, pass: &mut Pass) -> ArenaId
    requires { CanShare pool.now pass.old }
    ensures outside { IsOutside pool.now pass.new }
    ensures known { IsKnown pass.new result }
{
    let a = open_arena(rt, pool, pass, Kind::Shared).expect(rt, "a slot");
    same(rt, allocate(rt, pool, pass, a, 8, 8), Ok(0));
    same(rt, enter(pool, pass, a), Ok(()));
    write(pool, pass, a);
    leave(pool, pass);
    a
}

/// Opens an arena and closes it.
fn ended<R: Abort + Wait>(rt: &R, pool: &Pool, pass: &mut Pass) -> ArenaId
    requires { IsOutside pool.now pass.old }
    ensures outside { IsOutside pool.now pass.new }
    ensures known { IsKnown pass.new result }
    ensures lasts { Lasts pass.old pass.new }
{
    let a = open_arena(rt, pool, pass, Kind::Shared).expect(rt, "a slot");
    same(rt, close(rt, pool, pass, a), Ok(()));
    a
}

/// Finishes the pool, which knows the arenas that the pass knows.
fn finished<R: Abort + AllocGlobal>(rt: &R, pool: Pool, pass: Pass) -> Finished
    requires { IsOutside pool pass }
    ensures { (a : _) → IsKnown pass a → has_arena (state_of result) a ≡ true }
{
    a_crew_stands();
    let mut pass = pass;
    same(rt, pool.whole(&mut pass), true);
    pool.finish(rt.alloc(), pass).expect(rt, "words")
}

/// A pool with an arena that has given bytes, one that has given none, and one that has ended.
fn left<R: Abort + AllocGlobal + Wait>(rt: &R) -> (Finished, Arenas)
    ensures stocked { has_arena (state_of result.0) result.1.stocked ≡ true }
    ensures bare { has_arena (state_of result.0) result.1.bare ≡ true }
    ensures ended { has_arena (state_of result.0) result.1.ended ≡ true }
{
    let shape = Shape {
        passes: 1,
        slots: 3,
        pages: 3,
        page_words: 1,
        reach: 1,
        generations: 1,
    };
    let (pool, mut pass) = Pool::make(rt.alloc(), shape).expect(rt, "words");
    let stocked = stocked(rt, &pool, &mut pass);
    let bare = open_arena(rt, &pool, &mut pass, Kind::Global).expect(rt, "a slot");
    let ended = ended(rt, &pool, &mut pass);
    (
        finished(rt, pool, pass),
        Arenas {
            stocked,
            bare,
            ended,
        },
    )
}

/// A script, whose lines aren't in the order of printing.
const SCRIPT: &str =
    "pool 3 1 1 1 3\nfirst open e shared\nfirst alive e\nfirst alive e\nfirst close e\n2 open b global\n2 close b\n\
    1 open s shared\n1 alloc s t 8 8\n1 get t long 0\n1 alloc e u 1 1\n1 fill u 0\nlast open a auto\nlast again a h\n\
    last back a\nlast back h\n";

/// The script of the same lines in the order of printing.
const PRINTED: &str =
    "pool 3 1 1 1 3\nfirst open e shared\nfirst alive e\nfirst alive e\nfirst close e\n1 open s shared\n\
    1 alloc s t 8 8\n1 get t long 0\n1 alloc e u 1 1\n1 fill u 0\n2 open b global\n2 close b\nlast open a auto\n\
    last again a h\nlast back a\nlast back h\n";

/// A reply of each kind.
const REPLIES: [Reply; 15] = [
    Reply::Fine,
    Reply::Truth(true),
    Reply::Truth(false),
    Reply::Refused(Refusal::Held(2)),
    Reply::Fine,
    Reply::Place(0),
    Reply::Number(i64::MIN),
    Reply::Refused(Refusal::Closed),
    Reply::Skipped,
    Reply::Fine,
    Reply::Refused(Refusal::CannotClose(Kind::Global)),
    Reply::Refused(Refusal::NoSlot),
    Reply::Skipped,
    Reply::Kept,
    Reply::Ended,
];

const TEXT: &str =
    "first open e shared -> ok\nfirst alive e -> true\nfirst alive e -> false\nfirst close e -> refused 7 2\n\
    1 open s shared -> ok\n1 alloc s t 8 8 -> ok 0\n1 get t long 0 -> -9223372036854775808\n\
    1 alloc e u 1 1 -> refused 1\n1 fill u 0 -> skipped\n2 open b global -> ok\n2 close b -> refused 8 0\n\
    last open a auto -> refused 12\nlast again a h -> skipped\nlast back a -> kept\nlast back h -> ended\n\
    bytes b\nbytes s 0f00ab0000000000\n";

fn order_of<'a, R: Abort + AllocGlobal>(rt: &R, script: &'a Script) -> Vec<&'a Line> {
    let mut order = Vec::new(rt.alloc());
    for line in script.lines() {
        same(rt, order.push(line).is_ok(), true);
    }
    order
}

/// The lines in the order of printing: their numbers by the names that they make, and they with those replies.
fn told<R: Abort + AllocGlobal>(rt: &R) -> (Numbers, Vec<ReportLine>) {
    let printed = script_of(rt, PRINTED);
    let order = order_of(rt, &printed);
    let names = Numbers::of_lines(rt.alloc(), order.as_slice()).expect(rt, "names");
    same(rt, order.len(), 15);
    let lines = report_lines(rt.alloc(), order.as_slice(), &REPLIES).expect(rt, "texts");
    (names, lines)
}

fn one_caller<R: Abort + AllocGlobal>(rt: &R) -> Vec<Caller> {
    let mut callers = Vec::new(rt.alloc());
    let caller = Caller { number: 0, term: 0 };
    same(rt, callers.push(caller).is_ok(), true);
    callers
}

/// The report of the script, with those replies.
fn reported<R: Abort + AllocGlobal + Wait>(rt: &R) -> Report {
    let script = script_of(rt, SCRIPT);
    let (names, lines) = told(rt);
    let (finished, arenas) = left(rt);
    let mut opened = [None; 15];
    opened[0] = Some(arenas.ended);
    opened[4] = Some(arenas.stocked);
    opened[9] = Some(arenas.bare);
    let alloc = rt.alloc();
    let callers = one_caller(rt);
    Report::of(alloc, &script, &names, &opened, lines, callers, finished).expect(rt, "bytes")
}

#[test]
fn a_report_is_printed(rt: HostRuntime) {
    let report = reported(&rt);
    let text = print_report(rt.alloc(), &report).expect(&rt, "a text");
    same(&rt, text.as_str(), TEXT);
}

#[test]
fn a_report_has_its_parts(rt: HostRuntime) {
    let report = reported(&rt);
    same(&rt, report.callers().len(), 1);
    same(&rt, report.lines().len(), 15);
    same(&rt, report.lines()[6].reply, Reply::Number(i64::MIN));
    let alive = report.alive();
    same(&rt, alive.len(), 2);
    same(&rt, alive[1].name.as_bytes(), b"s".as_slice());
    same(
        &rt,
        alive[1].bytes.as_slice(),
        b"\x0f\0\xab\0\0\0\0\0".as_slice(),
    );
}
