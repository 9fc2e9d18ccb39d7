ghost use Rattle.std.specs.Prelude.{◌≡◌, ◌%◌, ◌==◌};
ghost use Rattle.std.specs.Int.{IsPowerOfTwo};

/// Whether a place is a multiple of an alignment, without a division.
#[inline(always)]
pub fn is_aligned(place: u64, alignment: u64) -> bool
    requires { IsPowerOfTwo alignment }
    ensures { result ≡ (place % alignment == 0) }
{
    place & (alignment - 1) == 0
}
