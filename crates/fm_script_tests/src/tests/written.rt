ghost use Rattle.std.specs.Prelude.{All};
ghost use Rattle.fm_script.specs.Runs.{IsWritten};
ghost use Rattle.fm_script_text.specs.Syntax.{IsSpelled};

use crate::tests::compared::same;
use fm_script_text::{Script, parse_script};
use std::alloc::AllocGlobal;
use std::process::Abort;

/// A script that was read.
pub fn script_of<R: Abort + AllocGlobal>(rt: &R, text: &str) -> Script
    ensures written { IsWritten result }
    ensures spelled { All (λ l. IsSpelled l.command) result.lines }
{
    parse_script(rt.alloc(), text.as_bytes()).expect(rt, "a script")
}

pub fn push<R: Abort>(rt: &R, text: &mut String, more: &str) {
    same(rt, text.push_str(more).is_ok(), true);
}

fn push_line<R: Abort>(rt: &R, text: &mut String, line: &str) {
    push(rt, text, line);
    push(rt, text, "\n");
}

fn push_asking<R: Abort>(rt: &R, text: &mut String, row: &str) {
    let (line, _) = row.split_once(" -> ").unwrap_or((row, ""));
    push_line(rt, text, line);
}

/// A script's text over this pool: these lines without the replies, which stand behind their arrows.
pub fn asking<R: Abort + AllocGlobal>(rt: &R, pool: &str, rows: &str) -> String {
    let mut text = String::new(rt.alloc());
    push_line(rt, &mut text, pool);
    for row in rows.lines() {
        push_asking(rt, &mut text, row);
    }
    text
}
