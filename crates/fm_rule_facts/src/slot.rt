/// A slot that a pass took, and the generation of the arena that is opened there next.
#[derive(Clone, Copy, Debug, PartialEq, Eq)]
pub struct Slot {
    pub slot: u32,
    pub generation: u32,
}
