mod access;
mod bytes;
mod copy;
mod fill;
mod mismatch;
mod overlap;
mod slices;

ghost use Rattle.std.specs.Prelude.{◌≡◌, ◌+◌, ◌≤◌, ◌^◌};
ghost use Rattle.fm_segment.specs.Region.{EndsByLimit, part_of, read_only_of, region_of};

pub use access::coding_of;
pub use copy::check_copy;
use fm_base::ArenaId;
pub use mismatch::answer_of;
use std::marker::Model;

/// A run of bytes of one arena, all below place 2^40. Contracts see it as a region.
#[derive(Clone, Copy, Debug, PartialEq, Eq)]
pub struct Segment {
    arena: ArenaId,
    first: u64,
    size: u64,
    read_only: bool,
}

impl Model for Segment {
    ghost use Rattle.fm_segment.specs.Region.{Region, EndsByLimit};

    ghost Value = { Region };

    ghost view = { λ s. record { arena = s.arena; first = s.first; size = s.size; read_only = s.read_only } };

    ghost invariant = { λ s. EndsByLimit s.first s.size };

    ghost inverse = { λ r. record { arena = r.arena; first = r.first; size = r.size; read_only = r.read_only } };
}

impl Segment {
    /// The bytes of the arena from the place `first` on, so many, open to writes.
    pub fn of(arena: ArenaId, first: u64, size: u64) -> Segment
        requires { first + size ≤ 2 ^ 40 }
        ensures { result ≡ region_of arena first size }
    {
        Segment {
            arena,
            first,
            size,
            read_only: false,
        }
    }

    /// The arena that the bytes are of (`scope`).
    pub fn arena(&self) -> ArenaId
        ensures { result ≡ self.now.arena }
    {
        self.arena
    }

    /// The place of the first byte, in bytes from the arena's start (`address`).
    pub fn first(&self) -> u64
        ensures first { result ≡ self.now.first }
        ensures ends { EndsByLimit self.now.first self.now.size }
    {
        self.first
    }

    /// The size in bytes (`byteSize`).
    pub fn size(&self) -> u64
        ensures size { result ≡ self.now.size }
        ensures ends { EndsByLimit self.now.first self.now.size }
    {
        self.size
    }

    /// Whether writes through it are refused (`isReadOnly`).
    pub fn is_read_only(&self) -> bool
        ensures { result ≡ self.now.read_only }
    {
        self.read_only
    }

    /// The same bytes, with writes refused (`asReadOnly`).
    pub fn as_read_only(&self) -> Segment
        ensures { result ≡ read_only_of self.now }
    {
        Segment {
            arena: self.arena,
            first: self.first,
            size: self.size,
            read_only: true,
        }
    }

    /// So many bytes from an offset on, which it has.
    pub(crate) fn part(&self, offset: u64, size: u64) -> Segment
        requires { offset + size ≤ self.now.size }
        ensures { result ≡ part_of offset size self.now }
    {
        Segment {
            arena: self.arena,
            first: self.first + offset,
            size,
            read_only: self.read_only,
        }
    }
}
