ghost use Rattle.fm_group_lists.specs.Groups.{GroupsAreOne, SumsAreOne};
ghost use Rattle.fm_group_lists.specs.Settled.{SettledAreGroups};

/// Numbers have one list of groups.
pub fn groups_are_one()
    ensures { GroupsAreOne }
{}

/// Pairs of a number and a count have one list of sums.
pub fn sums_are_one()
    ensures { SumsAreOne }
{}

/// Where each number was counted at a place where its like stands, what the places' counts sum up to are the groups of
/// the numbers, whether or not one number stands at several places.
pub fn settled_are_groups()
    ensures { SettledAreGroups }
{}
