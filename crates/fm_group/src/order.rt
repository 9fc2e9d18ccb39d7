ghost use Rattle.std.specs.Prelude.{◌≡◌, ◌+◌, ◌%◌, ◌<◌, true};
ghost use Rattle.std.specs.Int.{IsPowerOfTwo};
ghost use Rattle.fm_group.specs.Order.{dealt, first_of, folded, mixed};

/// The order in which a table's places are tried for a number: upwards from a first place, and behind the last one from
/// place 0.
#[derive(Clone, Copy, Debug, PartialEq, Eq)]
pub enum PlaceOrder {
    /// From the number modulo 2^64, modulo the places. Numbers that are equal modulo the places, as addresses of pages
    /// are, go one behind the other, so that counting them all takes the square of their number.
    ByRemainder,
    /// From a place that is mixed from all bits of the number.
    Mixed,
}

/// The odd numbers by which bits are multiplied, those of MurmurHash3's finalizer.
const FACTORS: [u64; 2] = [0xff51_afd7_ed55_8ccd, 0xc4ce_b9fe_1a85_ec53];

/// The first place that is tried for a number. `power` says that the places are a power of two in number.
#[inline(always)]
pub(crate) fn first_place(order: PlaceOrder, places: u64, power: bool, number: i64) -> u64
    requires some { 0 < places }
    requires power { power ≡ true → IsPowerOfTwo places }
    ensures { result ≡ first_of order places number }
{
    let bits = number.cast_unsigned();
    match order {
        PlaceOrder::ByRemainder => remainder(bits, places, power),
        PlaceOrder::Mixed => deal(places, mix(bits)),
    }
}

/// The bits mixed, as MurmurHash3's finalizer does it but for its last step, which changes no high bit.
#[inline(always)]
fn mix(bits: u64) -> u64
    ensures { result ≡ mixed bits }
{
    fold(fold(bits).wrapping_mul(FACTORS[0])).wrapping_mul(FACTORS[1])
}

/// The high bits folded over the low ones.
#[inline(always)]
fn fold(bits: u64) -> u64
    ensures { result ≡ folded bits }
{
    bits ^ (bits >> 33)
}

/// The remainder by the places, without a division where they are a power of two in number.
#[inline(always)]
fn remainder(bits: u64, places: u64, power: bool) -> u64
    requires some { 0 < places }
    requires power { power ≡ true → IsPowerOfTwo places }
    ensures { result ≡ bits % places }
{
    if power {
        bits & (places - 1)
    } else {
        bits % places
    }
}

/// The numbers below 2^64 are dealt to the places by their high bits, without a division.
#[inline(always)]
fn deal(places: u64, bits: u64) -> u64
    ensures { result ≡ dealt places bits }
{
    ((u128::from(bits) * u128::from(places)) >> 64) as u64
}

/// The place behind one, and behind the last the first.
#[inline(always)]
pub(crate) fn following(place: u64, places: u64) -> u64
    requires { place < places }
    ensures { result ≡ (place + 1) % places }
{
    if place + 1 == places { 0 } else { place + 1 }
}
