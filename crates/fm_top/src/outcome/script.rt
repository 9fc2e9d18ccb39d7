ghost use Rattle.std.specs.Prelude.{⊤, IfOk, None};
ghost use Rattle.fm_script.specs.Runs.{IsWritten};
ghost use Rattle.fm_top.specs.Ending.{shown};
ghost use Rattle.fm_top.specs.Ends.{EndsFile};
ghost use Rattle.fm_top.specs.Run.{EndsBy};
ghost use Rattle.fm_top.specs.Scripts.{IsReported};
ghost use Rattle.fm_top.specs.Words.{Run};

use crate::outcome::host::Host;
use crate::outcome::left::Left;
use crate::outcome::output::Output;
use crate::outcome::reply::Reply;
use crate::outcome::stop::Stop;
use crate::outcome::stopping::{of_file, of_script};
use fm_io::{Files, Gate};
use fm_script::{Script, parse_script, print_report, run_script};
use fm_top_load::read_whole;
use std::alloc::{AllocError, AllocGlobal};
use std::random::RandomSource;
use std::sync::Wait;
use std::thread::Threads;

/// The most bytes of a script's file.
pub const SCRIPT_FILE_LIMIT: u64 = 1_048_576;

/// Reads the file of a script, runs it, and answers with its report.
pub fn script_reply<'a, R, F: Files, G: Gate>(
    host: &Host<'_, R, G>,
    files: &mut F,
    file: &'a str,
) -> Result<Reply, Stop<'a>>
where
    R: Threads + Wait + Sync + RandomSource + AllocGlobal,
    ensures { EndsFile file.now SCRIPT_FILE_LIMIT ⊤ (λ found. EndsBy (Run file.now) found None)
        (F.view files.old)
        (F.view files.new) result }
{
    let bytes = read_whole(host.alloc, files, file, SCRIPT_FILE_LIMIT);
    let bytes = of_file(file, bytes)?;
    let script = of_script(parse_script(host.alloc, &bytes))?;
    Ok(report_reply(host, &script)?)
}

/// Runs a script.
fn report_reply<R, G: Gate>(host: &Host<'_, R, G>, script: &Script) -> Result<Reply, AllocError>
where
    R: Threads + Wait + Sync + RandomSource + AllocGlobal,
    requires { IsWritten script.now }
    ensures { IfOk result (λ reply. IsReported script.now (shown reply)) }
{
    let Ok(report) = run_script(host.rt, host.alloc, script, host.gate) else {
        return Err(AllocError);
    };
    // It is refused for want of memory alone.
    let Ok(text) = print_report(host.alloc, &report) else {
        return Err(AllocError);
    };
    Ok(Reply {
        text: Output::Whole(text),
        left: Left::Report(report),
    })
}
