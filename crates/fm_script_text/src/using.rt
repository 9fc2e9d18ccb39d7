ghost use Rattle.std.specs.Prelude.{◌≡◌, MatchOption};
ghost use Rattle.fm_script_text.specs.Rules.{made, as_thing, given_back, opened, phase, plays, reaches, pass_of, is_at_hand};

use crate::command::Command;
use crate::thing::{Role, Thing};
use crate::who::Who;
use fm_base::Kind;
use fm_path_text::NameText;

impl Command {
    /// The name that it makes, and what that stands for.
    pub fn makes(&self) -> Option<(&NameText, Thing)>
        ensures { MatchOption result (made self.now ≡ None) (λ m. made self.now ≡ as_thing m.0.now m.1) }
    {
        match self {
            Command::Open { name, kind } => Some((name, opened(*kind))),
            Command::Alloc { name, .. } => Some((name, Thing::Segment)),
            Command::Slice { name, .. } => Some((name, Thing::Segment)),
            Command::Readonly { name, .. } => Some((name, Thing::Segment)),
            Command::Hold { name, .. } => Some((name, Thing::Hold)),
            Command::Again { name, .. } => Some((name, Thing::Handle)),
            _ => None,
        }
    }

    /// The name of the hold or handle that it gives back.
    pub fn gives_back(&self) -> Option<&NameText>
        ensures { MatchOption result (given_back self.now ≡ None) (λ name. given_back self.now ≡ Some name.now) }
    {
        match self {
            Command::Unhold { hold } => Some(hold),
            Command::Back { handle } => Some(handle),
            _ => None,
        }
    }
}

/// What the name of an arena that is opened so stands for.
fn opened(kind: Kind) -> Thing
    ensures { result ≡ opened kind }
{
    match kind {
        Kind::Automatic => Thing::Automatic,
        Kind::Global | Kind::Confined | Kind::Shared => Thing::Arena,
    }
}

impl Who {
    /// 0 for the first lines, 1 for the workers', 2 for the last.
    pub fn phase(self) -> u8
        ensures { result ≡ phase self }
    {
        match self {
            Who::First => 0,
            Who::Worker(_) => 1,
            Who::Last => 2,
        }
    }

    /// The number of the pass: the first and the last lines are pass 0's.
    pub fn pass(self) -> u32
        ensures { result ≡ pass_of self }
    {
        match self {
            Who::First => 0,
            Who::Worker(number) => number,
            Who::Last => 0,
        }
    }

    /// Whether its names may be used by a later line of the other.
    pub fn reaches(self, other: Who) -> bool
        ensures { result ≡ reaches self other }
    {
        match (self, other) {
            (Who::First, _) => true,
            (Who::Worker(n), Who::Worker(m)) => n == m,
            (Who::Worker(_), Who::Last) => true,
            (Who::Last, Who::Last) => true,
            _ => false,
        }
    }
}

impl Thing {
    /// Whether a name of it may be used in this role.
    pub fn plays(self, role: Role) -> bool
        ensures { result ≡ plays self role }
    {
        match (self, role) {
            (Thing::Arena, Role::Arena) => true,
            (Thing::Automatic, Role::Arena) => true,
            (Thing::Automatic, Role::Handle) => true,
            (Thing::Segment, Role::Segment) => true,
            (Thing::Hold, Role::Hold) => true,
            (Thing::Handle, Role::Handle) => true,
            _ => false,
        }
    }
}

impl Role {
    /// Whether what the maker made, and maybe gave back, may be used by a line of this one.
    pub fn is_at_hand(self, spent: bool, maker: Who, who: Who) -> bool
        ensures { result ≡ is_at_hand self spent maker who }
    {
        match self {
            Role::Arena | Role::Segment => maker.reaches(who),
            Role::Hold | Role::Handle => maker.pass() == who.pass() && !spent,
        }
    }
}
