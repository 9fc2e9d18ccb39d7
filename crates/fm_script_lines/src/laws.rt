ghost use Rattle.fm_script_lines.specs.Admitted.{LinesLeaveNothing};
ghost use Rattle.fm_script_lines.specs.Laws.{SettledIsMade};

/// Where a pass has the holds and handles that it had before its lines, it has gone on as by calls of a memory.
pub fn settled_lines_are_a_memorys()
    ensures { SettledIsMade }
{}

/// Each hold and each handle that a script's lines make is given back by them, so where they break no rule nothing is
/// left to settle.
pub fn admitted_lines_leave_nothing()
    ensures { LinesLeaveNothing }
{}
