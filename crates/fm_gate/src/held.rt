use fm_base::ArenaId;
use fm_pages::Maker;

/// A hold of an arena: it can't be shut meanwhile. It must be spent by `unhold`, of the pass that took it.
pub struct Hold {
    pub(crate) arena: ArenaId,
    pub(crate) maker: Maker,
}

impl Hold {
    ghost use Rattle.std.specs.Prelude.{◌≡◌};

    /// The arena that is held.
    pub fn arena(&self) -> ArenaId
        ensures { result ≡ self.now.arena }
    {
        self.arena
    }
}
