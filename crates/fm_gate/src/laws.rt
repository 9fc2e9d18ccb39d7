ghost use Rattle.fm_gate.specs.Lasting.{HoldStands};
ghost use Rattle.fm_gate.specs.HoldLaws.{HoldsStand};
ghost use Rattle.fm_gate.specs.Crews.{CrewStands};

/// A hold can be spent after any calls that leave the pass its holds, such as those of `fm_close`.
pub fn a_hold_stands()
    ensures { HoldStands }
{}

/// Holds are counted: a second hold of an arena stands beside the first, and each of them stands when the other is spent.
pub fn both_holds_stand()
    ensures { HoldsStand }
{}

/// Passes stand where they stood while others are drawn from them, met or gathered; a drawn one is outside, and knows
/// what its giver knows. A pass that is outside and has nothing can be gathered.
pub fn a_crew_stands()
    ensures { CrewStands }
{}
