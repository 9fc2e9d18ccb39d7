ghost use Rattle.std.specs.Prelude.{◌≡◌, List, ℕ, IfOk, IfErr, IfSome, IfNone};
ghost use Rattle.std.specs.Option.{option_map};
ghost use Rattle.fm_script_text.specs.Scripts.{IsNoScript, IsScript, lines_of, numbered};
ghost use Rattle.fm_script_text.specs.Syntax.{Says, SaysPool};
ghost use Rattle.fm_script_text.specs.Taking.{AreNoLines, IsAll, IsNoLine, IsTaken, first_kept};
ghost use Rattle.fm_script_text.specs.declared.command.Command.{Command};
ghost use Rattle.fm_script_text.specs.declared.who.Who.{Who};
ghost use Rattle.fm_words.specs.declared.shape.Shape.{Shape};

use crate::command::Command;
use crate::line::Line;
use crate::names::Names;
use crate::pool_line::pool_of;
use crate::reading::line_of;
use crate::script::Script;
use crate::sources::{Source, Sources};
use crate::who::Who;
use fm_base::Refusal;
use fm_base_text::Text;
use fm_words::Shape;
use std::alloc::Global;
use std::str;

/// The script that this text spells: the pool's line, and behind it lines of who runs a command and the command.
///
/// Refused: `BadScript` with the number, from 1, of the first line that breaks a rule, the lines taken in order; of the
/// line behind the last one where all are skipped; and where each line keeps the rules, but a hold or a handle isn't
/// given back, of the line that made the first such. `Memory`, at a line behind the pool's that breaks no rule.
pub fn parse_script(alloc: Global, bytes: &[u8]) -> Result<Script, Refusal>
    ensures script { IfOk result (IsScript bytes.now) }
    ensures refused { IfErr result (IsNoScript bytes.now) }
{
    let mut sources = Sources::of(bytes);
    let Some(pool) = sources.next() else {
        return Err(Refusal::BadScript(sources.number));
    };
    let Some(shape) = shape_of(pool.text) else {
        return Err(Refusal::BadScript(pool.number));
    };
    let read = match read_lines(alloc, sources) {
        Ok(read) => read,
        Err(refusal) => return Err(refusal),
    };
    match kept_at(&read.names, read.lines.as_slice()) {
        Some(number) => Err(Refusal::BadScript(number)),
        None => {
            let passes = read.names.passes;
            Ok(Script::of(Shape { passes, ..shape }, read.lines))
        }
    }
}

/// The lines of a script behind the pool's, and what they did to names.
#[derive(Drop)]
struct Read {
    lines: Vec<Line>,
    names: Names,
}

/// All lines that are left.
fn read_lines(alloc: Global, sources: Sources<'_>) -> Result<Read, Refusal>
    ensures all { IfOk result (λ read.
        IsAll (numbered sources.entry.number (lines_of sources.entry.rest.now)) read.lines.items read.names) }
    ensures refused { IfErr result (AreNoLines (numbered sources.entry.number (lines_of sources.entry.rest.now))) }
{
    let mut sources = sources;
    let mut lines = Vec::new(alloc);
    let mut names = Names::new(alloc);
    while let Some(source) = sources.next() {
        let line = match read_line(alloc, &mut names, source) {
            Ok(line) => line,
            Err(refusal) => return Err(refusal),
        };
        let Ok(()) = lines.push(line) else {
            return Err(Refusal::Memory);
        };
    }
    Ok(Read { lines, names })
}

/// The line that this one spells, if it is admitted behind those before; its names are taken in.
fn read_line(alloc: Global, names: &mut Names, source: Source<'_>) -> Result<Line, Refusal>
    ensures taken { IfOk result (IsTaken source.entry.number source.entry.text.now names.old names.new) }
    ensures refused { IfErr result (IsNoLine source.entry.number source.entry.text.now names.old) }
{
    let Some((text, who, command)) = said(source.text) else {
        return Err(Refusal::BadScript(source.number));
    };
    if !names.admits(who, &command) {
        return Err(Refusal::BadScript(source.number));
    }
    let Ok(()) = names.note(alloc, who, &command) else {
        return Err(Refusal::Memory);
    };
    let Ok(text) = String::from_str(alloc, text) else {
        return Err(Refusal::Memory);
    };
    Ok(Line {
        number: source.number,
        text: Text::of(text),
        who,
        command,
    })
}

/// The line as text, who runs it, and what it asks for.
fn said(line: &[u8]) -> Option<(&str, Who, Command)>
    ensures text { IfSome result (λ x. x.0.now ≡ line.now) }
    ensures says { IfSome result (λ x. Says line.now x.1 x.2) }
    ensures none { IfNone result ((who : Who) (command : Command) → Says line.now who command → ⊥) }
{
    let Ok(text) = str::from_utf8(line) else {
        return None;
    };
    let Some((who, command)) = line_of(text) else {
        return None;
    };
    Some((text, who, command))
}

/// The shape that a pool's line says, with one pass.
fn shape_of(line: &[u8]) -> Option<Shape>
    ensures found { IfSome result (λ z. SaysPool line.now z) }
    ensures none { IfNone result ((z : Shape) → SaysPool line.now z → ⊥) }
{
    let Ok(text) = str::from_utf8(line) else {
        return None;
    };
    pool_of(text)
}

/// The number of the first line that makes a hold or handle that isn't given back.
fn kept_at(names: &Names, lines: &[Line]) -> Option<u64>
    ensures { result ≡ option_map (λ l. l.number) (first_kept names.now lines.now) }
{
    let line = lines.iter().find(|line| !names.settles(&line.command));
    line.map(|line| line.number)
}
