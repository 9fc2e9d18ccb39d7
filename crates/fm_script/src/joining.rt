ghost use Rattle.std.specs.Prelude.{◌≡◌, ◌∷◌, ◌++◌, IfOk, map};
ghost use Rattle.std.specs.List.{flat_map};
ghost use Rattle.fm_script_lines.specs.Ordering.{lines_at};
ghost use Rattle.fm_script_lines.specs.Standings.{arena_of, standing_as};
ghost use Rattle.fm_script_report.specs.Told.{IsRunOf};
ghost use Rattle.fm_script.specs.Runs.{HasRun};

use crate::main_lines::MainLines;
use crate::player::Player;
use fm_base::{ArenaId, Caller};
use fm_rule::Finished;
use fm_script_lines::{Bound, Numbers, Reply};
use fm_script_report::{Report, report_lines};
use fm_script_text::{Line, Script};
use std::alloc::{AllocError, Global};

/// The arena that each of the names stands for, if it does.
pub(crate) fn opened_by(alloc: Global, lent: &[Bound]) -> Result<Vec<Option<ArenaId>>, AllocError>
    ensures { IfOk result (λ opened. opened.items
        ≡ map (λ name. arena_of (standing_as name)) lent.now) }
{
    let mut opened = Vec::new(alloc);
    for name in lent {
        opened.push(name.arena())?;
    }
    Ok(opened)
}

/// The passes' callers, pass 0's first.
pub(crate) fn callers_of(
    alloc: Global,
    main: Caller,
    players: &[Player],
) -> Result<Vec<Caller>, AllocError>
    ensures { IfOk result (λ callers. callers.items
        ≡ main ∷ map (λ player. player.caller) players.now) }
{
    let mut callers = Vec::new(alloc);
    callers.push(main)?;
    for player in players {
        callers.push(player.caller)?;
    }
    Ok(callers)
}

/// All replies in the order of printing.
pub(crate) fn replies_of(
    alloc: Global,
    firsts: Vec<Reply>,
    players: &[Player],
    lasts: &[Reply],
) -> Result<Vec<Reply>, AllocError>
    ensures { IfOk result (λ all. all.items
        ≡ firsts.items ++ (flat_map (λ player. player.replies.items) players.now ++ lasts.now)) }
{
    let mut replies = firsts;
    for player in players {
        replies.extend_from_slice(player.replies.as_slice())?;
    }
    replies.extend_from_slice(lasts)?;
    Ok(replies)
}

/// The report of a script that has run, whose lines stand in the order of printing.
pub(crate) fn report_run(
    alloc: Global,
    script: &Script,
    order: &[&Line],
    names: &Numbers,
    caller: Caller,
    players: &[Player],
    main: MainLines,
    finished: Finished,
) -> Result<Report, AllocError>
    requires { HasRun script.now (lines_at order.now) names.now caller players.now main finished }
    ensures { IfOk result (IsRunOf script.now) }
{
    let opened = opened_by(alloc, main.lent.as_slice())?;
    let callers = callers_of(alloc, caller, players)?;
    let replies = replies_of(alloc, main.firsts, players, main.lasts.as_slice())?;
    let lines = report_lines(alloc, order, replies.as_slice())?;
    Report::of(
        alloc,
        script,
        names,
        opened.as_slice(),
        lines,
        callers,
        finished,
    )
}
