use fm_base::Caller;
use fm_script_lines::{Bound, Reply};
use std::alloc::AllocError;

/// A worker of a script, and what its lines came to.
#[derive(Drop)]
pub struct Player {
    pub number: u32,
    /// The number of its first line.
    pub start: usize,
    /// Who ran its lines.
    pub caller: Caller,
    pub replies: Vec<Reply>,
    /// What its names stand for to others, once its lines ran.
    pub lent: Vec<Bound>,
    /// Want of memory, if that cut its lines off.
    pub cut: Option<AllocError>,
}
