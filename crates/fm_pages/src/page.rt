use crate::maker::Maker;

/// A page in the hand of the pass that claimed it. It must be spent by that pass: by `map`, or by `free_page`.
pub struct Page {
    pub(crate) index: u32,
    pub(crate) maker: Maker,
}

impl Page {
    ghost use Rattle.std.specs.Prelude.{◌≡◌};

    /// Its index, below the shape's `pages`.
    pub fn index(&self) -> u32
        ensures { result ≡ self.now.index }
    {
        self.index
    }
}
