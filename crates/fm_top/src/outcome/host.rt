use fm_io::Gate;
use std::alloc::Global;

/// What a run works with beside its files: threads, memory, and the gate that its workers pass.
#[derive(Drop)]
pub struct Host<'r, R, G: Gate> {
    pub rt: &'r R,
    pub alloc: Global,
    pub gate: &'r G,
}
