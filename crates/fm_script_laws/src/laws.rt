ghost use Rattle.fm_script_laws.specs.Histories.{TidyInParts};
ghost use Rattle.fm_script_laws.specs.Lines.{LineIsTidy, LinesAreTidy};
ghost use Rattle.fm_script_laws.specs.Openings.{ReportsFindMany};
ghost use Rattle.fm_script_laws.specs.Replies.{NoLineWants};
ghost use Rattle.fm_script_laws.specs.Reports.{ReportsAreTidy};
ghost use Rattle.fm_script_laws.specs.Slots.{FindsAreRight};

/// Each own entry of a pass's line is tidy in the state in which it was made.
pub fn lines_are_tidy()
    ensures { LineIsTidy }
{}

/// So are those of its lines in a row.
pub fn rows_are_tidy()
    ensures { LinesAreTidy }
{}

/// Where each caller's entries are tidy, a history of them all is, and one whose parts are.
pub fn parts_are_tidy()
    ensures { TidyInParts }
{}

/// What a script's lines did in a legal history, its passes' all together, is tidy.
pub fn reports_are_tidy()
    ensures { ReportsAreTidy }
{}

/// Where a worker's line finds no slot, other lines had each slot: first ones, other workers' or its own earlier ones.
pub fn finds_are_right()
    ensures { FindsAreRight }
{}

/// Where it does so in a report, at least as many other `open` lines as the pool has slots were answered ok.
pub fn reports_find_many()
    ensures { ReportsFindMany }
{}

/// No line of a report is answered `Memory`, since a pool's calls take none, and none but those that allocate `PoolFull`.
pub fn lines_want_nothing()
    ensures { NoLineWants }
{}
