ghost use Rattle.std.specs.Prelude.{◌≡◌, IfOk, string_bytes};
ghost use Rattle.fm_c_calls.specs.Reports.{PutsText, arguments_in, listed, report_text};

use crate::output::put_front;
use crate::report::Report;
use fm_base::Refusal;
use std::alloc::{AllocError, Global};

/// What a refusal tells beside its number.
enum Arguments {
    None,
    One(u64),
    Two(u64, u64),
}

/// Puts the text of the refusal that the report tells, as the program prints it: its number and then its arguments.
///
/// Refused: `Memory`, which puts nothing.
pub fn put_report(alloc: Global, report: &Report, out: &mut [u8]) -> Result<u64, Refusal>
    ensures { PutsText report.now out.old out.new result }
{
    let Ok(text) = text_of(alloc, *report) else {
        return Err(Refusal::Memory);
    };
    Ok(put_front(out, text.as_str().as_bytes()))
}

fn text_of(alloc: Global, report: Report) -> Result<String, AllocError>
    ensures { IfOk result (λ text. string_bytes text ≡ report_text report) }
{
    let number = report.number;
    match arguments_in(report) {
        Arguments::None => format!(in alloc; "{number}"),
        Arguments::One(first) => format!(in alloc; "{number} {first}"),
        Arguments::Two(first, second) => format!(in alloc; "{number} {first} {second}"),
    }
}

/// The arguments of the refusal that the report tells.
fn arguments_in(report: Report) -> Arguments
    ensures { listed result ≡ arguments_in report }
{
    if report.arguments == 0 {
        Arguments::None
    } else if report.arguments == 1 {
        Arguments::One(report.first)
    } else {
        Arguments::Two(report.first, report.second)
    }
}
