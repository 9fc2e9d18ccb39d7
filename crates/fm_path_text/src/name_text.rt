ghost use Rattle.std.specs.Prelude.{◌≡◌, ◌<◌, ◌≤◌, ◌++◌, ◌∷◌, ◌||◌, [], length, IsTrue, IsSome, IfSome, ◌↔◌};
ghost use Rattle.fm_layout.specs.Name.{IsName, is_letter, is_digit};

use fm_layout::is_name;
use std::marker::Model;

/// A name of a layout, seen as its bytes: 1 to 64 ASCII letters, digits and `_`, no digit first.
#[derive(Clone, Debug, Drop)]
pub struct NameText {
    bytes: [u8; 64],
    len: usize,
}

impl Model for NameText {
    ghost use Rattle.std.specs.Prelude.{◌≤◌, List, ℕ, take};
    ghost use Rattle.fm_layout.specs.Name.{IsName};

    ghost Value = { List ℕ };

    ghost view = { λ name. take name.len name.bytes };

    ghost invariant = { λ name. (name.len ≤ 64) × IsName (take name.len name.bytes) };
}

impl NameText {
    /// The name that this text is; `None` exactly where it is no name.
    pub fn of(text: &str) -> Option<NameText>
        ensures name { IfSome result (λ name. name ≡ text.now) }
        ensures some { IsSome result ↔ IsName text.now }
    {
        if !is_name(text) {
            return None;
        }
        let mut bytes = [0; 64];
        bytes[..text.len()].copy_from_slice(text.as_bytes());
        Some(NameText {
            bytes,
            len: text.len(),
        })
    }

    /// The name of this one letter.
    pub fn of_letter(letter: u8) -> NameText
        requires { IsTrue (is_letter letter) }
        ensures { result ≡ letter ∷ [] }
    {
        let mut bytes = [0; 64];
        bytes[0] = letter;
        NameText { bytes, len: 1 }
    }

    /// How many bytes it has.
    pub fn len(&self) -> usize
        ensures length { result ≡ length self.now }
        ensures short { result ≤ 64 }
    {
        self.len
    }

    /// Adds a letter or a digit at the end.
    pub fn push(&mut self, byte: u8)
        requires room { length self.old < 64 }
        requires part { IsTrue (is_letter byte || is_digit byte) }
        ensures { self.new ≡ self.old ++ byte ∷ [] }
    {
        self.bytes[self.len] = byte;
        self.len += 1;
    }

    /// Its bytes, all ASCII.
    pub fn as_bytes(&self) -> &[u8]
        ensures bytes { result.now ≡ self.now }
        ensures name { IsName self.now }
    {
        &self.bytes[..self.len]
    }
}
