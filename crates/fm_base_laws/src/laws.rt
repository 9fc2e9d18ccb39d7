ghost use Rattle.fm_base.specs.Counting.{WeighsByCallers};
ghost use Rattle.fm_base_laws.specs.Claims.{ClaimedBySome, ClaimsStand};
ghost use Rattle.fm_base_laws.specs.Counts.{GivenStays, StaysUnheld};
ghost use Rattle.fm_base_laws.specs.Left.{LeftIsFound};
ghost use Rattle.fm_base_laws.specs.Opened.{OpenedInOrder};
ghost use Rattle.fm_base_laws.specs.Own.{OwnDecide};

/// The arenas of a state are those that were opened, in that order.
pub fn opened_in_order()
    ensures { OpenedInOrder }
{}

/// An arena in which no entry allocates has given as much as before.
pub fn given_stays()
    ensures { GivenStays }
{}

/// An arena that nobody holds, and of which no entry takes a hold, is held by nobody.
pub fn stays_unheld()
    ensures { StaysUnheld }
{}

/// A byte that all other callers spare is what the caller's own entries leave, by their calls and replies alone.
pub fn own_decide()
    ensures { OwnDecide }
{}

/// A word that all entries leave stays, and each Read finds it.
pub fn left_is_found()
    ensures { LeftIsFound }
{}

/// What a try found or put at a word that is only claimed stands there in the end.
pub fn claims_stand()
    ensures { ClaimsStand }
{}

/// Where a word was 0 and isn't, one of the entries claimed it.
pub fn claimed_by_some()
    ensures { ClaimedBySome }
{}

/// What entries weigh is the sum of what those of each caller do, where those of others weigh nothing.
pub fn weighs_by_callers()
    ensures { WeighsByCallers }
{}
