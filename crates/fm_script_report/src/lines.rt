ghost use Rattle.std.specs.Prelude.{◌≡◌, IfOk, length, map};
ghost use Rattle.fm_script_report.specs.Told.{AreTold, told};

use crate::line::ReportLine;
use fm_script_lines::Reply;
use fm_script_text::{Line, Text};
use std::alloc::{AllocError, Global};

/// The lines' texts, each with its reply.
pub fn report_lines(
    alloc: Global,
    order: &[&Line],
    replies: &[Reply],
) -> Result<Vec<ReportLine>, AllocError>
    requires { length replies.now ≡ length order.now }
    ensures { IfOk result (λ lines. AreTold (map (λ l. l.now) order.now) replies.now lines.items) }
{
    let mut lines = Vec::with_capacity(alloc, order.len())?;
    for (k, line) in order.iter().enumerate() {
        lines.push_reserved(report_line(alloc, line, replies[k])?);
    }
    Ok(lines)
}

/// The line's text with this reply.
fn report_line(alloc: Global, line: &Line, reply: Reply) -> Result<ReportLine, AllocError>
    ensures { IfOk result (λ t. t ≡ told line.now.text reply) }
{
    let text = String::from_str(alloc, line.text.as_str())?;
    Ok(ReportLine {
        text: Text::of(text),
        reply,
    })
}
