use std::alloc::Global;

/// What the passes of a crew work with, and how many they are.
#[derive(Drop)]
pub(crate) struct Crew<'a, R, G> {
    pub(crate) rt: &'a R,
    pub(crate) alloc: Global,
    /// From 1 to 16.
    pub(crate) threads: u32,
    /// Where each share is a call of the worker that takes it.
    pub(crate) gate: &'a G,
}
