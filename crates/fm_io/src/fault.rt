ghost use Rattle.std.specs.Prelude.{◌≡◌};
ghost use Rattle.fm_io.specs.declared.fault.Fault.TheVariants.{Memory};

use std::alloc::AllocError;

/// Why a read or a write did nothing.
#[derive(Clone, Copy, Debug, PartialEq, Eq)]
pub enum Fault {
    /// The device failed, which its count of faults shows.
    Failed,
    /// Memory ran out.
    Memory,
}

impl From<AllocError> for Fault {
    ghost from_gives = { λ _ e. e ≡ Memory };

    fn from(_: AllocError) -> Self {
        Fault::Memory
    }
}
