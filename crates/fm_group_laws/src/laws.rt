ghost use Rattle.fm_group_laws.specs.Laws.{CountsAreGroups, GroupsAreRead, NeverFull, ReadAsItStands, ReadByItself};

/// Where callers counted their shares of all values to the end, and nobody else changed the table or the records, what
/// the counts sum up to by their numbers are the groups of all numbers in the records.
pub fn counts_are_groups()
    ensures { CountsAreGroups }
{}

/// Where nobody else changes the table or the records, a table with a place for each value is never found full.
pub fn never_full()
    ensures { NeverFull }
{}

/// Where nobody else changes the table or the records, a reading of the table answers the numbers of the values that
/// its claims name, each with the sum of the counts beside them, as they stand.
pub fn read_as_it_stands()
    ensures { ReadAsItStands }
{}

/// So it does for a caller by itself.
pub fn read_by_itself()
    ensures { ReadByItself }
{}

/// Where callers counted their shares of all values to the end, and then one reads the table while nobody else changes
/// it or the records, it answers the groups of all numbers in the records.
pub fn groups_are_read()
    ensures { GroupsAreRead }
{}
