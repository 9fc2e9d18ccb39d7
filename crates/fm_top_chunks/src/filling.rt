use fm_base::ArenaId;
use fm_records_query::Query;
use fm_top_load::Stretch;

/// A chunk of a file that is to be put, of records of a query.
pub struct Filling<'a> {
    pub query: &'a Query,
    /// It begins where the chunks before it end.
    pub stretch: Stretch<'a>,
    /// Which chunk of the file it is.
    pub number: u64,
    /// It has given room for a whole chunk.
    pub arena: ArenaId,
}
