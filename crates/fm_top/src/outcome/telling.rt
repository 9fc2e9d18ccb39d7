ghost use Rattle.std.specs.Prelude.{◌≡◌, ◌++◌, codes, Err, IsErrOf, Ok, OnOk};
ghost use Rattle.fm_base.specs.Printed.{refusal_text};
ghost use Rattle.fm_io.specs.Count.{Counts, Raised};
ghost use Rattle.fm_io.specs.Sink.{Appends, AppendsPrefix};
ghost use Rattle.fm_top.specs.Ending.{IsUntold, told};
ghost use Rattle.fm_top.specs.Outcome.{line, missing};

use crate::outcome::line::text_line;
use crate::outcome::stop::Stop;
use fm_base::Refusal;
use fm_io::{Fault, Sink, write_text};
use itoa::Buffer;
use std::alloc::Global;

/// Writes why a run stopped. That a file is missing is told without any memory, and nothing of a failed read, or of want
/// of memory.
pub fn write_stop<O: Sink>(alloc: Global, out: &mut O, stop: Stop<'_>) -> Result<(), Fault>
    ensures whole { OnOk result
        (Appends (O.view out.old).written (O.view out.new).written (told stop.entry).text) }
    ensures prefix { AppendsPrefix (O.view out.old).written (O.view out.new).written (told stop.entry).text }
    ensures counted { Counts Raised (IsErrOf result Fault.Failed)
        (O.view out.old).faults (O.view out.new).faults }
    ensures untold { IsUntold (Err stop.entry) → (out.new ≡ out.old) × (result ≡ Ok tt) }
{
    match stop {
        Stop::Usage => write_line(alloc, out, "usage", ""),
        Stop::Missing(file) => write_missing(out, file),
        Stop::TooLong => write_line(alloc, out, "too long", ""),
        Stop::LayoutRefused(refusal) => write_refused(alloc, out, "layout", refusal),
        Stop::QueryRefused(refusal) => write_refused(alloc, out, "query", refusal),
        Stop::Ragged(rest) => write_line(alloc, out, "ragged ", Buffer::new().format(rest)),
        Stop::ScriptRefused(line) => write_line(
            alloc,
            out,
            "script refused ",
            Buffer::new().format(line),
        ),
        Stop::Unread | Stop::Memory => Ok(()),
    }
}

/// Writes the line of a label and what stands behind it.
fn write_line<O: Sink>(alloc: Global, out: &mut O, label: &str, rest: &str) -> Result<(), Fault>
    ensures whole { OnOk result
        (Appends (O.view out.old).written (O.view out.new).written (line (label.now ++ rest.now))) }
    ensures prefix { AppendsPrefix (O.view out.old).written (O.view out.new).written
        (line (label.now ++ rest.now)) }
    ensures counted { Counts Raised (IsErrOf result Fault.Failed)
        (O.view out.old).faults (O.view out.new).faults }
{
    let text = text_line(alloc, label, rest)?;
    write_text(out, text.as_bytes())
}

/// Writes that the layout or the query is refused.
fn write_refused<O: Sink>(
    alloc: Global,
    out: &mut O,
    what: &str,
    refusal: Refusal,
) -> Result<(), Fault>
    ensures whole { OnOk result
        (Appends (O.view out.old).written (O.view out.new).written (line (what.now ++ (codes " refused " ++ refusal_text refusal)))) }
    ensures prefix { AppendsPrefix (O.view out.old).written (O.view out.new).written
        (line (what.now ++ (codes " refused " ++ refusal_text refusal))) }
    ensures counted { Counts Raised (IsErrOf result Fault.Failed)
        (O.view out.old).faults (O.view out.new).faults }
{
    let text = format!(in alloc; "{what} refused {refusal}\n")?;
    write_text(out, text.as_bytes())
}

/// Writes that there is no file of this name: part by part, so that it takes no memory.
fn write_missing<O: Sink>(out: &mut O, file: &str) -> Result<(), Fault>
    ensures whole { OnOk result
        (Appends (O.view out.old).written (O.view out.new).written (missing file.now).text) }
    ensures prefix { AppendsPrefix (O.view out.old).written (O.view out.new).written
        (missing file.now).text }
    ensures counted { Counts Raised (IsErrOf result Fault.Failed)
        (O.view out.old).faults (O.view out.new).faults }
{
    write_text(out, b"missing ")?;
    write_name(out, file)
}

/// Writes a line of this text.
fn write_name<O: Sink>(out: &mut O, text: &str) -> Result<(), Fault>
    ensures whole { OnOk result
        (Appends (O.view out.old).written (O.view out.new).written (line text.now)) }
    ensures prefix { AppendsPrefix (O.view out.old).written (O.view out.new).written (line text.now) }
    ensures counted { Counts Raised (IsErrOf result Fault.Failed)
        (O.view out.old).faults (O.view out.new).faults }
{
    write_text(out, text.as_bytes())?;
    write_text(out, b"\n")
}
