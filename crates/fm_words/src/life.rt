ghost use Rattle.std.specs.Prelude.{◌≡◌, ◌<◌};
ghost use Rattle.fm_words.specs.Sessions.{life_bits, life_of};

/// Where a slot is in the life of an arena.
#[derive(Clone, Copy, Debug, PartialEq, Eq)]
pub enum Life {
    /// The slot has no arena.
    Free,
    /// The slot's arena is open.
    Alive,
    /// The slot's arena was shut: nobody comes into it again.
    Closing,
    /// No slot is so: two bits tell four lives apart.
    Unused,
}

impl Life {
    /// The two bits that tell it.
    pub(crate) fn bits(self) -> u32
        ensures { result ≡ life_bits self }
    {
        match self {
            Life::Free => 0,
            Life::Alive => 1,
            Life::Closing => 2,
            Life::Unused => 3,
        }
    }

    /// The life that two bits tell.
    pub(crate) fn of_bits(bits: u32) -> Life
        requires { bits < 4 }
        ensures { result ≡ life_of bits }
    {
        match bits {
            0 => Life::Free,
            1 => Life::Alive,
            2 => Life::Closing,
            _ => Life::Unused,
        }
    }
}
