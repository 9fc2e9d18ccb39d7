use crate::gate::Gate;
use std::sync::Wait;

/// What a worker goes through before and after each of its calls, which count from 0. It may wait there.
pub trait Turns {
    /// Before the call, where it may wait.
    fn before<R: Wait>(&self, rt: &R, call: u64);

    /// After the call.
    fn after(&self, call: u64);
}

/// The turns of a worker at a gate, which has its number.
#[derive(Drop)]
pub struct AtGate<'a, G> {
    pub gate: &'a G,
    pub worker: u32,
}

impl<'a, G: Gate> Turns for AtGate<'a, G> {
    fn before<R: Wait>(&self, rt: &R, call: u64) {
        self.gate.before(rt, self.worker, call);
    }

    fn after(&self, call: u64) {
        self.gate.after(self.worker, call);
    }
}
