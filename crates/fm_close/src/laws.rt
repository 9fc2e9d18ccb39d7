ghost use Rattle.fm_close.specs.CloseLaws.{CloseLasts, ClosesLast};

/// A close under way stands, at the same mark, through calls that leave the pass what it has, such as visits to arenas,
/// through closes of other arenas, while holds and handles are taken and spent and arenas opened, and while other
/// passes are drawn, met or gathered. So does one whose arena has ended, until it is swept.
pub fn a_close_lasts()
    ensures { CloseLasts }
{}

/// Closes of several arenas by one pass stand side by side: each through the shutting, the visits and the sweep of every
/// other. One that is begun is of another arena than those that stand.
pub fn closes_last_together()
    ensures { ClosesLast }
{}
