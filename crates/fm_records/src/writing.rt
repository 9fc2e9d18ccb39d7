ghost use Rattle.std.specs.Prelude.{◌≡◌, ◌<◌, ◌++◌, codes, length, IsErrOf, OnOk, string_bytes};
ghost use Rattle.std.specs.List.{flat_map};
ghost use Rattle.fm_io.specs.Count.{Counts, Raised};
ghost use Rattle.fm_io.specs.Sending.{Sends};
ghost use Rattle.fm_io.specs.Sink.{Appends, AppendsPrefix, SinkView};
ghost use Rattle.fm_records.specs.Texts.{answer_text, lines_text, line_text, found_text, end_text, number_text};

use crate::answer::Answer;
use crate::found::Found;
use crate::numbers::Numbers;
use fm_io::{Fault, PIECE, Sink, send_piece, send_rest};
use fm_records_query::{Item, Query};
use itoa::Buffer;
use std::alloc::Global;

/// Writes the answer's text: a line for each item, the item's text, a space and what it found.
///
/// A least or greatest number is `none` where there are no values. Listed numbers have a space between them, and where
/// there are none the line is the item's text alone. The text is made as it is written, so that a long list never stands
/// whole in memory as text. After an error a prefix of it was written.
pub fn write_answer<O: Sink>(alloc: Global, out: &mut O, q: &Query, a: &Answer) -> Result<(), Fault>
    ensures whole { OnOk result
        (Appends (O.view out.old).written (O.view out.new).written (answer_text q.now a.now)) }
    ensures prefix { AppendsPrefix (O.view out.old).written (O.view out.new).written
        (answer_text q.now a.now) }
    ensures counted { Counts Raised (IsErrOf result Fault.Failed)
        (O.view out.old).faults (O.view out.new).faults }
{
    let mut text = String::new(alloc);
    send_lines(out, &mut text, q.items(), a.found())?;
    send_rest(out, &mut text)
}

/// The lines of these items, as far as each has a find. Behind each line less than a piece pends.
pub(crate) fn send_lines<O: Sink>(
    out: &mut O,
    text: &mut String,
    items: &[Item],
    found: &[Found],
) -> Result<(), Fault>
    ensures sends { Sends (O.view out.old) (O.view out.new)
        (string_bytes text.old) (string_bytes text.new) (lines_text items.now found.now) result }
    ensures short { length (string_bytes text.old) < PIECE
        → OnOk result (length (string_bytes text.new) < PIECE) }
{
    for k in 0..items.len().min(found.len()) {
        send_line(out, text, &items[k], &found[k])?;
    }
    Ok(())
}

/// A line. What pends behind it is written where it has grown to a piece.
fn send_line<O: Sink>(
    out: &mut O,
    text: &mut String,
    item: &Item,
    found: &Found,
) -> Result<(), Fault>
    ensures sends { Sends (O.view out.old) (O.view out.new)
        (string_bytes text.old) (string_bytes text.new) (line_text item.now found.now) result }
    ensures short { OnOk result (length (string_bytes text.new) < PIECE) }
{
    text.push_str(item.text.as_str())?;
    send_found(out, text, found)?;
    text.push('\n')?;
    send_piece(out, text)
}

/// What stands behind an item's text.
fn send_found<O: Sink>(out: &mut O, text: &mut String, found: &Found) -> Result<(), Fault>
    ensures { Sends (O.view out.old) (O.view out.new)
        (string_bytes text.old) (string_bytes text.new) (found_text found.now) result }
{
    match found {
        Found::Count(n) => push_spaced(text, Buffer::new().format(*n)),
        Found::Sum(n) => push_spaced(text, Buffer::new().format(*n)),
        Found::Least(n) => push_end(text, *n),
        Found::Greatest(n) => push_end(text, *n),
        Found::Listed(numbers) => send_numbers(out, text, numbers),
    }
}

/// These numbers. Behind each of them less than a piece pends.
#[tactic(auto, using(crate::proofs::Sent::no_number))]
fn send_numbers<O: Sink>(out: &mut O, text: &mut String, numbers: &Numbers) -> Result<(), Fault>
    ensures sends { Sends (O.view out.old) (O.view out.new)
        (string_bytes text.old) (string_bytes text.new) (flat_map number_text numbers.now) result }
    ensures short { length (string_bytes text.old) < PIECE
        → OnOk result (length (string_bytes text.new) < PIECE) }
{
    for k in 0..numbers.len() {
        send_number(out, text, numbers.at(k))?;
    }
    Ok(())
}

/// A number. What pends behind it is written where it has grown to a piece.
fn send_number<O: Sink>(out: &mut O, text: &mut String, number: i64) -> Result<(), Fault>
    ensures sends { Sends (O.view out.old) (O.view out.new)
        (string_bytes text.old) (string_bytes text.new) (number_text number) result }
    ensures short { OnOk result (length (string_bytes text.new) < PIECE) }
{
    push_spaced(text, Buffer::new().format(number))?;
    send_piece(out, text)
}

fn push_end(text: &mut String, end: Option<i64>) -> Result<(), Fault>
    ensures { (out : SinkView) → Sends out out (string_bytes text.old) (string_bytes text.new) (end_text end) result }
{
    match end {
        None => push_spaced(text, "none"),
        Some(n) => push_spaced(text, Buffer::new().format(n)),
    }
}

/// Adds a space and a word to what pends. Nothing is written.
fn push_spaced(text: &mut String, word: &str) -> Result<(), Fault>
    ensures { (out : SinkView) → Sends out out
        (string_bytes text.old) (string_bytes text.new) (codes " " ++ word.now) result }
{
    text.push(' ')?;
    text.push_str(word)?;
    Ok(())
}
