ghost use Rattle.std.specs.Prelude.{◌≡◌, ◌+◌, ◌<◌, ◌≤◌, length, take, drop, IsErrOf, OnOk, string_bytes};
ghost use Rattle.fm_io.specs.Count.{Counts, Raised};
ghost use Rattle.fm_io.specs.Sending.{Sends};
ghost use Rattle.fm_io.specs.Sink.{Appends, AppendsPrefix};
ghost use Rattle.fm_top_texts.specs.Lines.{text_line, texts_text};
ghost use Rattle.fm_top_texts.specs.Plans.{LiesWithin};

use crate::lines::push_line;
use crate::plan::TextPlan;
use fm_io::{Fault, PIECE, Sink, send_piece, send_rest};
use fm_top_load::Loaded;
use std::alloc::Global;

/// Writes the lines of all records.
pub fn write_texts<O: Sink>(
    alloc: Global,
    out: &mut O,
    loaded: &mut Loaded,
    plan: &TextPlan,
) -> Result<(), Fault>
    requires sized { 0 < plan.now.size }
    requires within { LiesWithin plan.now }
    ensures whole { OnOk result
        (Appends (O.view out.old).written (O.view out.new).written (texts_text plan.now loaded.old)) }
    ensures prefix { AppendsPrefix (O.view out.old).written (O.view out.new).written
        (texts_text plan.now loaded.old) }
    ensures counted { Counts Raised (IsErrOf result Fault.Failed)
        (O.view out.old).faults (O.view out.new).faults }
    ensures same { loaded.new ≡ loaded.old }
{
    let mut pending = String::new(alloc);
    send_lines(alloc, out, &mut pending, loaded, plan)?;
    send_rest(out, &mut pending)
}

/// The lines of all records. Behind each of them less than a piece pends.
fn send_lines<O: Sink>(
    alloc: Global,
    out: &mut O,
    pending: &mut String,
    loaded: &mut Loaded,
    plan: &TextPlan,
) -> Result<(), Fault>
    requires sized { 0 < plan.now.size }
    requires within { LiesWithin plan.now }
    ensures sends { Sends (O.view out.old) (O.view out.new)
        (string_bytes pending.old) (string_bytes pending.new) (texts_text plan.now loaded.old) result }
    ensures same { loaded.new ≡ loaded.old }
{
    for k in 0..loaded.len() / plan.size {
        let place = k * plan.size + plan.offset;
        send_text(alloc, out, pending, loaded, place, plan.count)?;
    }
    Ok(())
}

/// The line of the text in `size` bytes from a place on.
fn send_text<O: Sink>(
    alloc: Global,
    out: &mut O,
    pending: &mut String,
    loaded: &mut Loaded,
    place: u64,
    size: u64,
) -> Result<(), Fault>
    requires { place + size ≤ length loaded.old }
    ensures sends { Sends (O.view out.old) (O.view out.new)
        (string_bytes pending.old) (string_bytes pending.new) (text_line (take size (drop place loaded.old))) result }
    ensures short { OnOk result (length (string_bytes pending.new) < PIECE) }
    ensures same { loaded.new ≡ loaded.old }
{
    push_line(pending, loaded.text(alloc, place, size))?;
    send_piece(out, pending)
}
