use crate::kind::Kind;
use std::alloc::AllocError;
use std::fmt;

/// Why a call was refused. A refused call leaves arenas, bytes and segments as they were, unless it says otherwise.
///
/// Steps of a path, members, nodes, indices and lines are counted as the call that answers the refusal says.
/// A refusal is printed as its number and then its arguments, separated by spaces.
#[derive(Clone, Copy, Debug, PartialEq, Eq)]
pub enum Refusal {
    /// The call's entry found the arena not alive.
    Closed,
    /// The arena is confined, and the caller isn't its owner.
    WrongThread,
    /// The range passes the segment's size.
    Bounds,
    /// The place isn't a multiple of the alignment asked for.
    Misaligned,
    /// A write through a read-only segment.
    ReadOnly,
    /// The call isn't for this layout or arena.
    Unsupported,
    /// The arena has this many holds.
    Held(u64),
    /// An arena of this kind isn't closed by hand.
    CannotClose(Kind),
    /// The alignment isn't a power of two.
    BadAlignment,
    /// The arena has given this many bytes, and the range passes its limit.
    NoRoom(u64),
    /// No page of the pool was free.
    PoolFull,
    /// No slot for an arena was free.
    NoSlot,
    /// Every pass was drawn.
    NoPass,
    /// The arena has 65,535 holds.
    TooManyHolds,
    /// A size or alignment would be over 2^40 bytes.
    Overflow,
    /// The member of this index stands at this offset, which isn't a multiple of its alignment.
    MemberMisaligned(u64, u64),
    /// The element's size isn't a multiple of its alignment.
    ElementRagged,
    /// Padding of 0 bytes.
    BadPadding,
    /// A group's or sequence's alignment set below this least one.
    AlignmentBelow(u64),
    /// A layout of 0 bytes as a record or as an element to cut by.
    NoSize,
    /// This step names a member of a layout that is no group.
    NotGroup(u64),
    /// The group has no such member as this step names.
    NoMember(u64),
    /// This step is for a sequence, and the layout is none.
    NotSequence(u64),
    /// The index at this step isn't admitted.
    IndexOut(u64),
    /// This step leaves an index open where none may be.
    StillOpen(u64),
    /// The path ends at no value layout.
    NotValue,
    /// The stride of this step is 0.
    BadStep(u64),
    /// The bytes are no JSON.
    BadJson,
    /// The JSON is no layout at this node.
    BadShape(u64),
    /// The longest prefix of the text that begins a text of the grammar has this many bytes.
    BadQuery(u64),
    /// The length leaves this rest when cut by the size.
    Ragged(u64),
    /// This line of the script is refused.
    BadScript(u64),
    /// The longest prefix of the bytes that is text has this many bytes.
    NotText(u64),
    /// No byte is zero.
    NoZero,
    /// Every place of the table is taken.
    TableFull,
    /// Memory ran out.
    Memory,
}

/// What a call answers that may be refused.
pub type OrRefused<T> = Result<T, Refusal>;

impl From<AllocError> for Refusal {
    ghost use Rattle.std.specs.Prelude.{◌≡◌};
    ghost use Rattle.fm_base.specs.declared.refusal.Refusal.TheVariants.{Memory};

    ghost from_gives = { λ _ e. e ≡ Memory };

    fn from(_: AllocError) -> Self {
        Refusal::Memory
    }
}

/// What a refusal tells beside its number.
enum Arguments {
    None,
    One(u64),
    Two(u64, u64),
}

impl Refusal {
    ghost use Rattle.std.specs.Prelude.{◌≡◌};
    ghost use Rattle.fm_base.specs.Printed.{refusal_number, arguments_of};
    ghost use Rattle.fm_base.specs.Listed.{listed};

    /// The number by which the refusal is printed.
    pub fn number(self) -> u64
        ensures { result ≡ refusal_number self }
    {
        match self {
            Refusal::Closed => 1,
            Refusal::WrongThread => 2,
            Refusal::Bounds => 3,
            Refusal::Misaligned => 4,
            Refusal::ReadOnly => 5,
            Refusal::Unsupported => 6,
            Refusal::Held(_) => 7,
            Refusal::CannotClose(_) => 8,
            Refusal::BadAlignment => 9,
            Refusal::NoRoom(_) => 10,
            Refusal::PoolFull => 11,
            Refusal::NoSlot => 12,
            Refusal::NoPass => 13,
            Refusal::TooManyHolds => 14,
            Refusal::Overflow => 20,
            Refusal::MemberMisaligned(_, _) => 21,
            Refusal::ElementRagged => 22,
            Refusal::BadPadding => 23,
            Refusal::AlignmentBelow(_) => 24,
            Refusal::NoSize => 25,
            Refusal::NotGroup(_) => 30,
            Refusal::NoMember(_) => 31,
            Refusal::NotSequence(_) => 32,
            Refusal::IndexOut(_) => 33,
            Refusal::StillOpen(_) => 34,
            Refusal::NotValue => 35,
            Refusal::BadStep(_) => 36,
            Refusal::BadJson => 40,
            Refusal::BadShape(_) => 41,
            Refusal::BadQuery(_) => 50,
            Refusal::Ragged(_) => 51,
            Refusal::BadScript(_) => 53,
            Refusal::NotText(_) => 60,
            Refusal::NoZero => 61,
            Refusal::TableFull => 62,
            Refusal::Memory => 99,
        }
    }

    fn arguments(self) -> Arguments
        ensures { listed result ≡ arguments_of self }
    {
        match self {
            Refusal::CannotClose(kind) => Arguments::One(kind.number()),
            Refusal::MemberMisaligned(index, offset) => Arguments::Two(index, offset),
            Refusal::Held(n)
            | Refusal::NoRoom(n)
            | Refusal::AlignmentBelow(n)
            | Refusal::NotGroup(n)
            | Refusal::NoMember(n)
            | Refusal::NotSequence(n)
            | Refusal::IndexOut(n)
            | Refusal::StillOpen(n)
            | Refusal::BadStep(n)
            | Refusal::BadShape(n)
            | Refusal::BadQuery(n)
            | Refusal::Ragged(n)
            | Refusal::BadScript(n)
            | Refusal::NotText(n) => Arguments::One(n),
            _ => Arguments::None,
        }
    }
}

impl fmt::Display for Refusal {
    ghost use Rattle.std.specs.Prelude.{Some};
    ghost use Rattle.fm_base.specs.Printed.{refusal_text};

    ghost output = { λ refusal. Some (refusal_text refusal) };

    fn fmt<W: fmt::Write>(&self, f: &mut fmt::Formatter<W>) -> fmt::Result {
        let number = self.number();
        match self.arguments() {
            Arguments::None => write!(f, "{number}"),
            Arguments::One(n) => write!(f, "{number} {n}"),
            Arguments::Two(n, m) => write!(f, "{number} {n} {m}"),
        }
    }
}
