ghost use Rattle.std.specs.Prelude.{◌≡◌, IfErr, IfOk};
ghost use Rattle.fm_script_report.specs.Told.{IsRunOf};
ghost use Rattle.fm_script.specs.Runs.{IsWritten};

use crate::joining::report_run;
use crate::over::run_over;
use crate::players::players_of;
use fm_base::Refusal;
use fm_io::Gate;
use fm_rule::Pool;
use fm_script_lines::{Numbers, in_order};
use fm_script_report::Report;
use fm_script_text::Script;
use std::alloc::{AllocGlobal, Global};
use std::random::RandomSource;
use std::sync::Wait;
use std::thread::Threads;

/// Runs a script over a pool of its own.
///
/// The first lines run in order, by pass 0. Then the workers run side by side, each by a pass of its own, in a thread
/// of its own where one can be started, and each of their lines between two calls of the gate. Pass 0 gathers them all,
/// and runs the last lines. Memory for passes and replies is taken before a worker begins.
///
/// Refused: `Memory`.
pub fn run_script<R: Threads + Wait + Sync + RandomSource + AllocGlobal, G: Gate>(
    rt: &R,
    alloc: Global,
    script: &Script,
    gate: &G,
) -> Result<Report, Refusal>
    requires { IsWritten script.now }
    ensures report { IfOk result (IsRunOf script.now) }
    ensures memory { IfErr result (λ refusal. refusal ≡ Refusal.Memory) }
{
    let lines = script.lines();
    let order = in_order(alloc, lines, script.shape().passes - 1)?;
    let all = order.lines.as_slice();
    let names = Numbers::of_lines(alloc, all)?;
    let mut players = players_of(alloc, lines, order.starts.as_slice())?;
    let (pool, pass) = Pool::make(alloc, script.shape())?;
    let caller = pass.caller();
    let (pass, ran) = run_over(
        rt,
        alloc,
        &pool,
        pass,
        &names,
        lines,
        all.len(),
        &mut players,
        gate,
    );
    let main = ran?;
    let finished = pool.finish(alloc, pass)?;
    let report = report_run(
        alloc,
        script,
        all,
        &names,
        caller,
        players.as_slice(),
        main,
        finished,
    )?;
    Ok(report)
}
