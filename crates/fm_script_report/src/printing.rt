ghost use Rattle.std.specs.Prelude.{◌≡◌, ◌++◌, IfOk, OnOk, IfErr, string_bytes};
ghost use Rattle.std.specs.List.{flat_map};
ghost use Rattle.fm_script_report.specs.Texts.{arena_text, line_text, reply_text, report_text, truth_text};

use crate::arena::AliveArena;
use crate::line::ReportLine;
use crate::report::Report;
use fm_base::Refusal;
use fm_base_text::push_bytes;
use fm_path_text::NameText;
use fm_script_lines::Reply;
use std::alloc::{AllocError, Global};
use std::str;

/// The report's text: each of the script's lines with its reply behind an arrow, and then a line for each arena that is
/// alive at the end, with its bytes. Refused: `Memory`.
pub fn print_report(alloc: Global, report: &Report) -> Result<String, Refusal>
    ensures text { IfOk result (λ text. string_bytes text ≡ report_text report.now) }
    ensures memory { IfErr result (λ refusal. refusal ≡ Refusal.Memory) }
{
    let text = text_of(alloc, report)?;
    Ok(text)
}

fn text_of(alloc: Global, report: &Report) -> Result<String, AllocError>
    ensures { IfOk result (λ text. string_bytes text ≡ report_text report.now) }
{
    let mut text = String::new(alloc);
    push_lines(&mut text, report.lines())?;
    push_arenas(&mut text, report.alive())?;
    Ok(text)
}

fn push_lines(text: &mut String, lines: &[ReportLine]) -> Result<(), AllocError>
    ensures { OnOk result (string_bytes text.new ≡ string_bytes text.old ++ flat_map line_text lines.now) }
{
    for line in lines {
        push_line(text, line)?;
    }
    Ok(())
}

fn push_line(text: &mut String, line: &ReportLine) -> Result<(), AllocError>
    ensures { OnOk result (string_bytes text.new ≡ string_bytes text.old ++ line_text line.now) }
{
    text.push_str(line.text.as_str())?;
    text.push_str(" -> ")?;
    push_reply(text, line.reply)?;
    text.push('\n')?;
    Ok(())
}

fn push_reply(text: &mut String, reply: Reply) -> Result<(), AllocError>
    ensures { OnOk result (string_bytes text.new ≡ string_bytes text.old ++ reply_text reply) }
{
    match reply {
        Reply::Fine => text.push_str("ok"),
        Reply::Place(place) => write!(text, "ok {place}"),
        Reply::Number(number) => write!(text, "{number}"),
        Reply::Truth(truth) => text.push_str(word_of(truth)),
        Reply::Kept => text.push_str("kept"),
        Reply::Ended => text.push_str("ended"),
        Reply::Refused(refusal) => write!(text, "refused {refusal}"),
        Reply::Skipped => text.push_str("skipped"),
    }
}

fn word_of(truth: bool) -> &'static str
    ensures { result.now ≡ truth_text truth }
{
    if truth { "true" } else { "false" }
}

fn push_arenas(text: &mut String, alive: &[AliveArena]) -> Result<(), AllocError>
    ensures { OnOk result (string_bytes text.new ≡ string_bytes text.old ++ flat_map arena_text alive.now) }
{
    for arena in alive {
        push_arena(text, arena)?;
    }
    Ok(())
}

fn push_arena(text: &mut String, arena: &AliveArena) -> Result<(), AllocError>
    ensures { OnOk result (string_bytes text.new ≡ string_bytes text.old ++ arena_text arena.now) }
{
    text.push_str("bytes ")?;
    push_name(text, &arena.name)?;
    push_bytes(text, arena.bytes.as_slice())?;
    text.push('\n')?;
    Ok(())
}

fn push_name(text: &mut String, name: &NameText) -> Result<(), AllocError>
    ensures { OnOk result (string_bytes text.new ≡ string_bytes text.old ++ name.now) }
{
    match str::from_utf8(name.as_bytes()) {
        Ok(name) => text.push_str(name),
        Err(_) => unreachable!(),
    }
}
