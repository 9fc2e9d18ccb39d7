use std::fmt;

/// What ends an arena, and who may use it (`Arena`, Java SE 22: `global`, `ofAuto`, `ofConfined`, `ofShared`).
///
/// A kind is printed as its number, from 0 in the order below.
#[derive(Clone, Copy, Debug, PartialEq, Eq)]
pub enum Kind {
    /// Never ends; every caller may use it.
    Global,
    /// Ends with its last handle; every caller may use it.
    Automatic,
    /// Closed by its owner, who alone may use it.
    Confined,
    /// Closed by any caller; every caller may use it.
    Shared,
}

impl Kind {
    ghost use Rattle.std.specs.Prelude.{◌≡◌, true, false};
    ghost use Rattle.fm_base.specs.Arenas.{kind_number};
    ghost use Rattle.fm_base.specs.Does.{IsClosable};

    /// Whether an arena of this kind is closed by hand.
    pub fn is_closable(self) -> bool
        ensures yes { result ≡ true → IsClosable self }
        ensures no { result ≡ false → ¬ (IsClosable self) }
    {
        match self {
            Kind::Global | Kind::Automatic => false,
            Kind::Confined | Kind::Shared => true,
        }
    }

    /// The number by which the kind is printed.
    pub fn number(self) -> u64
        ensures { result ≡ kind_number self }
    {
        match self {
            Kind::Global => 0,
            Kind::Automatic => 1,
            Kind::Confined => 2,
            Kind::Shared => 3,
        }
    }
}

impl fmt::Display for Kind {
    ghost use Rattle.std.specs.Prelude.{Some};
    ghost use Rattle.std.specs.Fmt.{decimal};
    ghost use Rattle.fm_base.specs.Arenas.{kind_number};

    ghost output = { λ kind. Some (decimal (kind_number kind)) };

    fn fmt<W: fmt::Write>(&self, f: &mut fmt::Formatter<W>) -> fmt::Result {
        let number = self.number();
        write!(f, "{number}")
    }
}
