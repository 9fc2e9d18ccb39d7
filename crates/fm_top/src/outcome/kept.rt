ghost use Rattle.std.specs.Prelude.{◌≡◌, option_copied};
ghost use Rattle.fm_top.specs.Keeps.{pool_in, report_in};

use crate::outcome::left::Left;
use fm_rule::Finished;
use fm_script::Report;
use std::marker::Model;

/// What a run leaves for its caller to look at. Each run empties it first.
#[derive(Drop)]
pub struct Kept {
    left: Left,
}

impl Model for Kept {
    ghost use Rattle.fm_top.specs.declared.outcome.left.Left.{Left};

    ghost Value = { Left };

    ghost view = { λ k. k.left };
}

impl Kept {
    /// Keeps nothing.
    pub fn new() -> Kept
        ensures { result ≡ Left.Nothing }
    {
        Kept {
            left: Left::Nothing,
        }
    }

    /// Keeps what a run left.
    pub(crate) fn of(left: Left) -> Kept
        ensures { result ≡ left }
    {
        Kept { left }
    }

    /// The pool that a query, a tally, a grouping or a demonstration used. It is there where the run came to an answer, whether or
    /// not all of that could be written, and nowhere else: not where memory ran out before the answer was known.
    pub fn finished(&self) -> Option<&Finished>
        ensures { option_copied result ≡ pool_in self.now }
    {
        match &self.left {
            Left::Nothing => None,
            Left::Pool(finished) => Some(finished),
            Left::Report(_) => None,
        }
    }

    /// The report of a script, with the pool that it ran on. It is there where the script was run to a report, whether or
    /// not all of that could be written, and nowhere else: not where memory ran out before the report was known.
    pub fn report(&self) -> Option<&Report>
        ensures { option_copied result ≡ report_in self.now }
    {
        match &self.left {
            Left::Report(report) => Some(report),
            Left::Nothing | Left::Pool(_) => None,
        }
    }
}
