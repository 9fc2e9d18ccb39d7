ghost use Rattle.fm_base.specs.Lasting.{ZeroPastGiven, GivesZeros, ShutsForGood, EndsForGood, PlacesApart, StaysForEver, LooksUp, StaysWhole, AlwaysKeepsFaith};
ghost use Rattle.fm_base.specs.Untouched.{SparedStays, SparedIsFound, StaysAlive};
ghost use Rattle.fm_base.specs.Counting.{AddsCount, AddsByCallers};

/// Where a history is legal and tidy, every byte at or past the given count is 0.
pub fn zero_past_given()
    ensures { ZeroPastGiven }
{}

/// So every byte at or past the place that an allocation gives is 0 then.
pub fn gives_zeros()
    ensures { GivesZeros }
{}

/// An arena that was shut stays so: nobody comes into it, holds it or shuts it again.
pub fn shuts_for_good()
    ensures { ShutsForGood }
{}

/// After its end nobody is under way in an arena, and nobody comes into it again.
pub fn ends_for_good()
    ensures { EndsForGood }
{}

/// What one arena gave lies apart, at multiples of the alignments, within the limit.
pub fn places_apart()
    ensures { PlacesApart }
{}

/// An arena stays in the list for ever, and its name never comes twice.
pub fn stays_for_ever()
    ensures { StaysForEver }
{}

/// Each arena of the list is the one that is looked up by its name.
pub fn looks_up()
    ensures { LooksUp }
{}

/// Each arena of a legal history has all words of the limit, and gave no more bytes than the limit.
pub fn stays_whole()
    ensures { StaysWhole }
{}

/// A call of a `Memory` keeps faith with its caller's entries, where the history is told.
pub fn always_keeps_faith()
    ensures { AlwaysKeepsFaith }
{}

/// A byte that all entries spare stays.
pub fn spared_stays()
    ensures { SparedStays }
{}

/// Each Read of a byte that all entries spare finds what stood there.
pub fn spared_is_found()
    ensures { SparedIsFound }
{}

/// An arena that no entry closes stays alive, and everyone comes in.
pub fn stays_alive()
    ensures { StaysAlive }
{}

/// A word that is only added to grows by what was added, wrapping at 2^64.
pub fn adds_count()
    ensures { AddsCount }
{}

/// What was added to a word is the sum of what each of the callers added.
pub fn adds_by_callers()
    ensures { AddsByCallers }
{}
