ghost use Rattle.fm_group.specs.Order.{TriesEachPlace};
ghost use Rattle.fm_group.specs.Values.{NumbersByOrdinal, ResolvedIsFew};

/// The values by their ordinals are all numbers of the path in all records, in their order.
pub fn numbers_by_ordinal()
    ensures { NumbersByOrdinal }
{}

/// A path that was resolved has no more values than its record has bytes.
pub fn resolved_is_few()
    ensures { ResolvedIsFew }
{}

/// Each place of a table is tried for each number, in either order.
pub fn tries_each_place()
    ensures { TriesEachPlace }
{}
