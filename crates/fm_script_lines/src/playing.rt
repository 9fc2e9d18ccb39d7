ghost use Rattle.fm_script_lines.specs.Learnt.{AfterLines, CanRunLines};
ghost use Rattle.fm_script_lines.specs.Ordering.{is_by};
ghost use Rattle.fm_script_lines.specs.Report.{lines_by};

use crate::line::run_line;
use crate::ordering::is_by;
use crate::reply::Reply;
use crate::table::Table;
use fm_arena::Shared;
use fm_io::Turns;
use fm_script_text::{Line, Who};
use std::alloc::{AllocError, AllocGlobal, Global};
use std::random::RandomSource;
use std::sync::Wait;

/// Runs those of a script's lines that are a pass's next ones, in their order, each in its turn, and puts their
/// replies behind each other.
///
/// Memory may be wanting to an `add` or a `cas` alone. Then the lines before it ran, and those from it on did not.
pub fn play<R: Wait + RandomSource + AllocGlobal, T: Turns>(
    rt: &R,
    alloc: Global,
    m: &mut Shared,
    table: &mut Table,
    lines: &[Line],
    who: Who,
    replies: &mut Vec<Reply>,
    turns: &T,
) -> Result<(), AllocError>
    requires { CanRunLines m.old table.old lines.now who replies.old }
    ensures { AfterLines m.old m.new table.old table.new
        (lines_by (is_by who) lines.now) replies.new.items result }
{
    for line in lines {
        if is_by(who, line.who) {
            let turn = replies.len() as u64;
            turns.before(rt, turn);
            let run = run_line(rt, alloc, m, table, &line.command);
            turns.after(turn);
            let reply = run?;
            replies.push_reserved(reply);
        }
    }
    Ok(())
}
