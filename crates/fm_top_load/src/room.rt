use fm_base::ArenaId;

/// Where a stretch of a file is put: to an arena's start.
#[derive(Clone, Copy)]
pub enum Room {
    /// The arena has given room for all of it.
    Given(ArenaId),
    /// The arena gives room as the bytes come.
    Growing(ArenaId),
}
