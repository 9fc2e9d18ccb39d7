use crate::job::Job;
use crate::served::Served;
use crate::terms::{Promised, Terms};
use fm_records_query::Query;
use fm_workers_queue::{Queue, Turn};

/// What workers share: the query, the jobs, and where they put what they served.
pub struct Desk<'a, K: Terms> {
    pub query: &'a Query,
    pub jobs: &'a Queue<Job, Promised<K>>,
    pub served: &'a Queue<Served, Promised<K>>,
}

/// A worker's turns at both queues.
#[derive(Drop)]
pub struct Server {
    pub number: u32,
    pub taking: Turn<Job>,
    pub giving: Turn<Served>,
}
