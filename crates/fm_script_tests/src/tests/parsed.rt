use crate::tests::compared::same;
use crate::tests::written::script_of;
use fm_base::Kind;
use fm_lanes::{Order, ValueKind};
use fm_script_text::{CloseBy, Command, Line, Script, Who};
use std::process::Abort;

const TEXT: &str =
    "# counts\n\npool 1 1 8 1000 1\nfirst open a shared\n\nfirst alloc a s 8 16\n#\n2 set s int-be 4 -1\n\
     last closepoll a";

fn line<'a, R: Abort>(rt: &R, script: &'a Script, k: usize) -> &'a Line {
    script.lines().get(k).expect(rt, "a line")
}

fn is_line<R: Abort>(rt: &R, line: &Line, number: u64, who: Who, text: &str) {
    same(rt, line.number, number);
    same(rt, line.who, who);
    same(rt, line.text.as_str(), text);
}

#[test]
fn reads_lines(rt: HostRuntime) {
    let script = script_of(&rt, TEXT);
    same(&rt, script.lines().len(), 4);
    is_line(
        &rt,
        line(&rt, &script, 0),
        4,
        Who::First,
        "first open a shared",
    );
    is_line(
        &rt,
        line(&rt, &script, 1),
        6,
        Who::First,
        "first alloc a s 8 16",
    );
    is_line(
        &rt,
        line(&rt, &script, 2),
        8,
        Who::Worker(2),
        "2 set s int-be 4 -1",
    );
    is_line(&rt, line(&rt, &script, 3), 9, Who::Last, "last closepoll a");
}

#[test]
fn reads_a_shape(rt: HostRuntime) {
    let shape = script_of(&rt, TEXT).shape();
    same(&rt, shape.passes, 3);
    same(&rt, shape.page_words, 8);
    same(&rt, shape.generations, 1000);
}

fn opens_shared(command: &Command, named: &[u8]) -> bool {
    matches!(command, Command::Open { name, kind: Kind::Shared } if name.as_bytes() == named)
}

fn allocates_8_at_16(command: &Command, named: &[u8]) -> bool {
    matches!(command, Command::Alloc { name, size: 8, align: 16, .. } if name.as_bytes() == named)
}

fn sets_int_be_4(command: &Command) -> bool {
    matches!(command, Command::Set(cell, -1)
        if cell.kind == ValueKind::Int && cell.order == Order::Big && cell.offset == 4)
}

fn closes_by_polls(command: &Command, named: &[u8]) -> bool {
    matches!(command, Command::Close { arena, by: CloseBy::Polls } if arena.as_bytes() == named)
}

#[test]
fn reads_commands(rt: HostRuntime) {
    let script = script_of(&rt, TEXT);
    same(
        &rt,
        opens_shared(&line(&rt, &script, 0).command, b"a"),
        true,
    );
    same(
        &rt,
        allocates_8_at_16(&line(&rt, &script, 1).command, b"s"),
        true,
    );
    same(&rt, sets_int_be_4(&line(&rt, &script, 2).command), true);
    same(
        &rt,
        closes_by_polls(&line(&rt, &script, 3).command, b"a"),
        true,
    );
}
