ghost use Rattle.fm_script_report.specs.Living.{LivingAlwaysFit};

/// The arenas of a finished pool that have not ended fit its slots: no two have one slot, so there are no more of them.
pub fn living_arenas_fit()
    ensures { LivingAlwaysFit }
{}
