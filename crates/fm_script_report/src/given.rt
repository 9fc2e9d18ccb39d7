use std::marker::Model;

/// The bytes that an arena has given, seen as their list.
#[derive(Debug, Drop)]
pub struct Given {
    bytes: Vec<u8>,
}

impl Model for Given {
    ghost use Rattle.std.specs.Prelude.{List, ℕ};

    ghost Value = { List ℕ };

    ghost view = { λ given. given.bytes.items };
}

impl Given {
    ghost use Rattle.std.specs.Prelude.{◌≡◌};

    /// These bytes.
    pub fn of(bytes: Vec<u8>) -> Given
        ensures { result ≡ bytes.items }
    {
        Given { bytes }
    }

    pub fn as_slice(&self) -> &[u8]
        ensures { result.now ≡ self.now }
    {
        self.bytes.as_slice()
    }
}
