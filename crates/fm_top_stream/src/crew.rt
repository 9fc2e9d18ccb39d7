use fm_io::Gate;
use fm_records_query::Query;
use fm_rule::Pool;
use std::alloc::Global;

/// What a stream goes through: the chunks of a file, of so many bytes, and who answers over each of them, so many workers of
/// a pool, by one query.
#[derive(Drop)]
pub(crate) struct Crew<'a, G: Gate> {
    pub(crate) alloc: Global,
    pub(crate) name: &'a str,
    pub(crate) most: u64,
    pub(crate) pool: &'a Pool,
    pub(crate) q: &'a Query,
    pub(crate) threads: u32,
    pub(crate) gate: &'a G,
}
