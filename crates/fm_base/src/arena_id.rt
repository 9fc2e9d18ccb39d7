use crate::caller::Caller;
use crate::kind::Kind;

/// The name of an arena: no two arenas that were ever opened share one.
///
/// `owner` and `term` are the caller that opened the arena. It is checked for confined arenas alone.
#[derive(Clone, Copy, Debug, PartialEq, Eq)]
pub struct ArenaId {
    pub slot: u32,
    pub generation: u32,
    pub kind: Kind,
    pub owner: u32,
    pub term: u32,
}

impl ArenaId {
    ghost use Rattle.std.specs.Prelude.{◌≡◌, true, false};
    ghost use Rattle.fm_base.specs.Arenas.{MayUse};

    /// Whether only its owner may use the arena.
    #[inline(always)]
    pub fn is_confined(self) -> bool
        ensures yes { result ≡ true → self.kind ≡ Kind.Confined }
        ensures no { result ≡ false → ¬ (self.kind ≡ Kind.Confined) }
    {
        match self.kind {
            Kind::Confined => true,
            Kind::Global | Kind::Automatic | Kind::Shared => false,
        }
    }

    /// Whether the caller may use the arena: a confined one is its owner's alone.
    #[inline(always)]
    pub fn may_be_used_by(self, caller: Caller) -> bool
        ensures yes { result ≡ true → MayUse self caller }
        ensures no { result ≡ false → ¬ (MayUse self caller) }
    {
        match self.kind {
            Kind::Confined => self.owner == caller.number && self.term == caller.term,
            Kind::Global | Kind::Automatic | Kind::Shared => true,
        }
    }
}
