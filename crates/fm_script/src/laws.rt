ghost use Rattle.fm_script.specs.Alive.{AliveFit};

/// A report tells at most as many arenas that are alive as its pool has slots.
pub fn alive_arenas_fit()
    ensures { AliveFit }
{}
