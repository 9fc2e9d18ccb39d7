use fm_base::{ArenaId, Caller, Refusal};

/// What a call made of entries, as the code keeps it.
#[derive(Clone, Copy)]
pub enum Heard {
    Enter(ArenaId, Result<(), Refusal>),
    Load(ArenaId, u64, u64),
    Store(ArenaId, u64, u64),
    SwapIf(ArenaId, u64, u64, u64, u64),
    Add(ArenaId, u64, u64, u64),
    Leave(ArenaId),
    Open(Result<ArenaId, Refusal>),
    Allocate(ArenaId, u64, u64, Result<u64, Refusal>),
    Close(Caller, ArenaId, Result<(), Refusal>),
    /// This caller entered, added to a word, and left.
    Visit(Caller, ArenaId, u64, u64, u64),
}
