ghost use Rattle.std.specs.Prelude.{◌≡◌, ◌+◌, ◌≤◌, IfOk, OnErr, OnOk, List, length, vec_capacity};
ghost use Rattle.fm_base.specs.declared.arena_id.ArenaId.{ArenaId};
ghost use Rattle.fm_arena.specs.Shares.{CanShare};
ghost use Rattle.fm_script_lines.specs.declared.standing.Standing.{Standing};
ghost use Rattle.fm_script_lines.specs.Ordering.{in_order};
ghost use Rattle.fm_script_lines.specs.Tokens.{Backs};
ghost use Rattle.fm_script.specs.Mains.{AfterAll, CanRunAll, CanWork, TakesOver};
ghost use Rattle.fm_script.specs.Players.{playing};
ghost use Rattle.fm_script.specs.Runs.{CanRun, IsCutOff, Ran, Worked, names_lent};

use crate::lines::Lines;
use crate::main_lines::{MainLines, play_main};
use crate::player::Player;
use crate::players::all_played;
use fm_arena::Shared;
use fm_base::Refusal;
use fm_io::Gate;
use fm_rule::{Pass, Pool};
use fm_script_lines::{Numbers, Table};
use fm_script_text::{Line, Who};
use fm_workers_crew::work_crew;
use std::alloc::{AllocError, AllocGlobal, Global};
use std::random::RandomSource;
use std::sync::Wait;
use std::thread::Threads;

/// Runs all lines over a pool, of which in the end this pass is the only one again. There are `all` lines.
pub(crate) fn run_over<R: Threads + Wait + Sync + RandomSource + AllocGlobal, G: Gate>(
    rt: &R,
    alloc: Global,
    pool: &Pool,
    pass: Pass,
    names: &Numbers,
    lines: &[Line],
    all: usize,
    players: &mut Vec<Player>,
    gate: &G,
) -> (Pass, Result<MainLines, AllocError>)
    requires outside { CanShare pool.now pass }
    requires can { CanRun names.now lines.now pass players.old.items }
    requires all { all ≡ length (in_order (length players.old.items) lines.now) }
    ensures ran { IfOk result.1 (Ran names.now lines.now pass result.0 players.old.items
        players.new.items) }
    ensures outside { CanShare pool.now result.0 }
{
    let mut main = match MainLines::with_room(alloc, lines, all) {
        Ok(main) => main,
        Err(error) => return (pass, Err(error)),
    };
    let mut table = match Table::new(alloc, names, &[], 0, all) {
        Ok(table) => table,
        Err(error) => return (pass, Err(error)),
    };
    let (pass, ran) = run_all(
        rt, alloc, pool, pass, names, lines, &mut table, players, &mut main, gate,
    );
    let mut memory = Shared::new(pool, pass);
    table.settle(rt, &mut memory, &mut main.lent);
    let pass = memory.into_pass();
    match ran {
        Ok(()) => (pass, Ok(main)),
        Err(error) => (pass, Err(error)),
    }
}

/// The first lines, the workers' side by side, and the last lines.
fn run_all<R: Threads + Wait + Sync + RandomSource + AllocGlobal, G: Gate>(
    rt: &R,
    alloc: Global,
    pool: &Pool,
    pass: Pass,
    names: &Numbers,
    lines: &[Line],
    table: &mut Table,
    players: &mut Vec<Player>,
    main: &mut MainLines,
    gate: &G,
) -> (Pass, Result<(), AllocError>)
    requires can { CanRunAll pool.now pass names.now lines.now table.old players.old.items
        main.old }
    ensures { AfterAll pool.now pass result.0 names.now lines.now table.old table.new
        players.old.items players.new.items
        main.old main.new result.1 }
{
    let firsts = &mut main.firsts;
    let (mut pass, first) = play_main(rt, alloc, pool, pass, table, lines, Who::First, firsts);
    if first.is_err() {
        return (pass, first);
    }
    let work = Lines {
        rt,
        gate,
        names,
        lines,
        firsts: table.standings(),
    };
    let worked = work_players(rt, alloc, pool, &mut pass, &work, players);
    if worked.is_err() {
        return (pass, worked);
    }
    take_over_all(table, players.as_slice());
    let lasts = &mut main.lasts;
    play_main(rt, alloc, pool, pass, table, lines, Who::Last, lasts)
}

/// The workers, each by a pass of its own. Memory may be wanting before one begins, or where it cut the lines of one off.
fn work_players<R: Threads + Wait + Sync + RandomSource + AllocGlobal, G: Gate>(
    rt: &R,
    alloc: Global,
    pool: &Pool,
    pass: &mut Pass,
    work: &Lines<R, G>,
    players: &mut Vec<Player>,
) -> Result<(), AllocError>
    requires can { CanWork pool.now (playing work.now.names.now work.now.lines.now
        work.now.firsts.now) pass.old
        players.old.items }
    ensures worked { OnOk result (Worked (playing work.now.names.now work.now.lines.now
        work.now.firsts.now)
        pass.old pass.new players.old.items players.new.items) }
    ensures backs { (holds handles : List ArenaId) (base own : List Standing)
        → Backs pass.old holds handles base own
        → Backs pass.new holds handles base own }
    ensures outside { CanShare pool.now pass.new }
    ensures cut { OnErr result (IsCutOff players.old.items players.new.items) }
{
    if let Err(refusal) = work_crew(rt, alloc, pool, pass, work, players) {
        prove!(refusal == Refusal::Memory);
        return Err(AllocError);
    }
    if all_played(players.as_slice()) {
        Ok(())
    } else {
        Err(AllocError)
    }
}

/// Puts the workers' names behind those of the table.
fn take_over_all(table: &mut Table, players: &[Player])
    requires { length table.old.own.items + length (names_lent players.now)
        ≤ vec_capacity table.old.own }
    ensures { TakesOver table.old table.new players.now }
{
    for player in players {
        table.take_over(player.lent.as_slice());
    }
}
