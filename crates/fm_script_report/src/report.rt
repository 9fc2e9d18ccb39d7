ghost use Rattle.std.specs.Prelude.{◌≡◌, IfOk};
ghost use Rattle.fm_script_lines.specs.Numbers.{number_at};
ghost use Rattle.fm_script_report.specs.Alive.{AreOpened, arena_by};
ghost use Rattle.fm_script_report.specs.Told.{report_of};

use crate::alive::alive_arenas;
use crate::arena::AliveArena;
use crate::line::ReportLine;
use fm_base::{ArenaId, Caller};
use fm_rule::Finished;
use fm_script_lines::Numbers;
use fm_script_text::Script;
use std::alloc::{AllocError, Global};
use std::marker::Model;

/// What a run of a script came to: the pool that it left, who ran the lines, what each line was answered, and the bytes
/// of the arenas that are alive at the end.
#[derive(Drop)]
pub struct Report {
    finished: Finished,
    callers: Vec<Caller>,
    lines: Vec<ReportLine>,
    alive: Vec<AliveArena>,
}

impl Model for Report {
    ghost use Rattle.fm_script_report.specs.Views.{ReportView};

    ghost Value = { ReportView };

    ghost view = { λ r. record {
      finished = r.finished;
      callers = r.callers.items;
      lines = r.lines.items;
      alive = r.alive.items;
    } };
}

impl Report {
    /// The report of a run of this script, whose lines, in the order of printing, have these numbers by the names that
    /// they make, opened these arenas over this pool and are told so. The callers are pass 0's and the workers'.
    pub fn of(
        alloc: Global,
        script: &Script,
        names: &Numbers,
        opened: &[Option<ArenaId>],
        lines: Vec<ReportLine>,
        callers: Vec<Caller>,
        finished: Finished,
    ) -> Result<Report, AllocError>
        requires { AreOpened finished opened.now }
        ensures { IfOk result (λ r. r ≡ report_of (arena_by (number_at names.now) opened.now)
            script.now.lines lines.items callers.items finished) }
    {
        let alive = alive_arenas(alloc, &finished, names, opened, script.lines())?;
        Ok(Report {
            finished,
            callers,
            lines,
            alive,
        })
    }

    /// The pool that the script ran on.
    pub fn finished(&self) -> &Finished
        ensures { result.now ≡ self.now.finished }
    {
        &self.finished
    }

    /// The callers of pass 0 and of the workers.
    pub fn callers(&self) -> &[Caller]
        ensures { result.now ≡ self.now.callers }
    {
        self.callers.as_slice()
    }

    /// The lines in the order of printing.
    pub fn lines(&self) -> &[ReportLine]
        ensures { result.now ≡ self.now.lines }
    {
        self.lines.as_slice()
    }

    /// The arenas that are alive at the end.
    pub fn alive(&self) -> &[AliveArena]
        ensures { result.now ≡ self.now.alive }
    {
        self.alive.as_slice()
    }
}
