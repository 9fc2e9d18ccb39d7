use fm_base::Refusal;

/// A share of the values: those whose ordinals are from one on, below another.
#[derive(Drop)]
pub(crate) struct CountShare {
    /// The number of its worker at the gate, from 1 on.
    pub number: u32,
    pub from: u64,
    pub to: u64,
    /// The refusal at which its worker ended, if it was refused.
    pub end: Result<(), Refusal>,
}
