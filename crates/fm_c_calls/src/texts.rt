ghost use Rattle.std.specs.Prelude.{◌≡◌, ◌++◌, ◌<◌, codes, length, Ok, Err, IfSome, IfOk, IfErr, OnOk, string_bytes};
ghost use Rattle.fm_base_text.specs.Hex.{hex_text};
ghost use Rattle.fm_text.specs.Texts.{zero_at};
ghost use Rattle.fm_top_texts.specs.Lines.{text_line, text_of, texts_text};
ghost use Rattle.fm_top_texts.specs.Plans.{LiesWithin};
ghost use Rattle.fm_c_calls.specs.Texts.{IsTextPlan, IsNoTextPlan, PutsTexts};

use crate::output::put_front;
use crate::reading::read_text;
use crate::whole::{check_records, read_record_layout};
use fm_base::Refusal;
use fm_base_text::push_bytes;
use fm_top_texts::{TextPlan, bytes_have_one_text, plan_texts};
use std::alloc::{AllocError, Global};

/// Puts a line for each record, in their order, of the layout whose JSON the bytes are: the text in the field to which
/// the path leads, in hex behind `text`, or `refused` and why there is none, as `fmem texts` prints them.
///
/// Refused, in this order: as `layout_from_json` of `fm_ljson`; as `check_record` of `fm_records_query`; `NotText` where
/// the path isn't UTF-8, with the length of its longest front that is; as `plan_texts` of `fm_top_texts`; as
/// `check_records`. `Memory` may come at any time. A refused call puts nothing.
pub fn put_texts(
    alloc: Global,
    json: &[u8],
    path: &[u8],
    records: &[u8],
    out: &mut [u8],
) -> Result<u64, Refusal>
    ensures { PutsTexts json.now path.now records.now out.old out.new result }
{
    let plan = read_text_plan(alloc, json, path)?;
    match check_records(records, plan.size) {
        Ok(()) => {}
        Err(refusal) => return Err(refusal),
    }
    let Ok(lines) = texts_of(alloc, &plan, records) else {
        return Err(Refusal::Memory);
    };
    Ok(put_front(out, lines.as_str().as_bytes()))
}

/// Where the texts of records stand. Refused as `put_texts`, but for the records.
pub fn read_text_plan(alloc: Global, json: &[u8], path: &[u8]) -> Result<TextPlan, Refusal>
    ensures plan { IfOk result (IsTextPlan json.now path.now) }
    ensures refused { IfErr result (IsNoTextPlan json.now path.now) }
{
    let layout = read_record_layout(alloc, json)?;
    let text = match read_text(path) {
        Ok(text) => text,
        Err(refusal) => return Err(refusal),
    };
    plan_texts(alloc, &layout, text)
}

/// The lines of all records.
fn texts_of(alloc: Global, plan: &TextPlan, records: &[u8]) -> Result<String, AllocError>
    requires sized { 0 < plan.now.size }
    requires within { LiesWithin plan.now }
    ensures { IfOk result (λ lines. string_bytes lines ≡ texts_text plan.now records.now) }
{
    let mut lines = String::new(alloc);
    let size = plan.size as usize;
    for k in 0..records.len() / size {
        let at = k * size + plan.offset as usize;
        push_line(&mut lines, &records[at..at + plan.count as usize])?;
    }
    Ok(lines)
}

/// Adds the line of the text that these bytes have.
fn push_line(lines: &mut String, bytes: &[u8]) -> Result<(), AllocError>
    ensures { OnOk result (string_bytes lines.new ≡ string_bytes lines.old ++ text_line bytes.now) }
{
    match text_in(bytes) {
        Ok(text) => push_text(lines, text)?,
        Err(refusal) => write!(lines, "refused {refusal}")?,
    }
    lines.push('\n')
}

fn push_text(lines: &mut String, text: &str) -> Result<(), AllocError>
    ensures { OnOk result (string_bytes lines.new ≡ string_bytes lines.old ++ (codes "text" ++ hex_text text.now)) }
{
    lines.push_str("text")?;
    push_bytes(lines, text.as_bytes())
}

/// The text of the bytes before the first that is 0. Refused: `NoZero` where there is none; `NotText` with the length of
/// their longest front that is UTF-8.
fn text_in(bytes: &[u8]) -> Result<&str, Refusal>
    ensures text { IfOk result (λ text. text_of bytes.now ≡ Ok text.now) }
    ensures refused { IfErr result (λ refusal. text_of bytes.now ≡ Err refusal) }
{
    bytes_have_one_text();
    match zero_in(bytes) {
        Some(end) => match read_text(&bytes[..end]) {
            Ok(text) => Ok(text),
            Err(refusal) => Err(refusal),
        },
        None => Err(Refusal::NoZero),
    }
}

/// The index of the first byte that is 0.
fn zero_in(bytes: &[u8]) -> Option<usize>
    ensures first { result ≡ zero_at bytes.now }
    ensures within { IfSome result (λ end. end < length bytes.now) }
{
    bytes.iter().position(|byte| *byte == 0)
}
