use std::sync::Wait;

/// What workers pass before and after each of their calls. A test holds them here in an order of its own.
///
/// Workers count from 1, and a worker's calls from 0. A call is a line of a script, or a share of records.
pub trait Gate: Sync {
    /// Is passed before the call, and may wait.
    fn before<R: Wait>(&self, rt: &R, worker: u32, call: u64);

    /// Is passed after the call.
    fn after(&self, worker: u32, call: u64);
}

/// The program's gate, which holds nobody.
#[derive(Clone, Copy, Debug)]
pub struct FreeGate;

impl Gate for FreeGate {
    fn before<R: Wait>(&self, _rt: &R, _worker: u32, _call: u64) {}

    fn after(&self, _worker: u32, _call: u64) {}
}
