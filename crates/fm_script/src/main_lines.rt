ghost use Rattle.std.specs.Prelude.{◌≡◌, IfOk};
ghost use Rattle.fm_arena.specs.Shares.{CanShare};
ghost use Rattle.fm_rule_facts.specs.Views.{IsSound};
ghost use Rattle.fm_script_lines.specs.Learnt.{AfterLines, CanRunLines};
ghost use Rattle.fm_script_lines.specs.Ordering.{is_by};
ghost use Rattle.fm_script_lines.specs.Report.{lines_by};

use fm_arena::Shared;
use fm_io::{AtGate, FreeGate};
use fm_rule::{Pass, Pool};
use fm_script_lines::{Bound, Reply, Table, count_lines, play};
use fm_script_text::{Line, Who};
use std::alloc::{AllocError, AllocGlobal, Global};
use std::random::RandomSource;
use std::sync::Wait;

/// What the first lines and the last ones came to, which one pass runs.
#[derive(Drop)]
pub struct MainLines {
    pub firsts: Vec<Reply>,
    pub lasts: Vec<Reply>,
    /// What all names of the script stand for in the end.
    pub lent: Vec<Bound>,
}

impl MainLines {
    ghost use Rattle.fm_script.specs.Mains.{HasRoom};

    /// Of no line yet, with room for these and for so many names.
    pub(crate) fn with_room(
        alloc: Global,
        lines: &[Line],
        names: usize,
    ) -> Result<MainLines, AllocError>
        ensures { IfOk result (HasRoom lines.now names) }
    {
        Ok(MainLines {
            firsts: Vec::with_capacity(alloc, count_lines(lines, Who::First))?,
            lasts: Vec::with_capacity(alloc, count_lines(lines, Who::Last))?,
            lent: Vec::with_capacity(alloc, names)?,
        })
    }
}

/// Those of the lines that are these, as the lines of this pass.
pub(crate) fn play_main<R: Wait + RandomSource + AllocGlobal>(
    rt: &R,
    alloc: Global,
    pool: &Pool,
    pass: Pass,
    table: &mut Table,
    lines: &[Line],
    who: Who,
    replies: &mut Vec<Reply>,
) -> (Pass, Result<(), AllocError>)
    requires outside { CanShare pool.now pass }
    requires can { CanRunLines pass table.old lines.now who replies.old }
    ensures after { AfterLines pass result.0 table.old table.new
        (lines_by (is_by who) lines.now) replies.new.items
        result.1 }
    ensures outside { CanShare pool.now result.0 }
    ensures sound { IsSound result.0 }
{
    let mut memory = Shared::new(pool, pass);
    let turns = AtGate {
        gate: &FreeGate,
        worker: 0,
    };
    let played = play(rt, alloc, &mut memory, table, lines, who, replies, &turns);
    let pass = memory.into_pass();
    (pass, played)
}
