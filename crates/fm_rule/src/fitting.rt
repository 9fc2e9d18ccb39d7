ghost use Rattle.std.specs.Prelude.{◌≡◌, ◌<◌, ◌/◌};
ghost use Rattle.fm_rule_facts.specs.Steps as steps;

use fm_base::round_up;

/// The place of the next `size` bytes of an arena that has given so many: a multiple of `align`. None exactly where they
/// would end past the limit.
pub fn room(limit: u64, given: u64, size: u64, align: u64) -> Option<u64>
    requires { 0 < align }
    ensures { result ≡ steps.room limit given size align }
{
    let place = round_up(given, align);
    if place + u128::from(size) <= u128::from(limit) {
        Some(place as u64)
    } else {
        None
    }
}

/// The count of given bytes after them; the same count where they don't fit.
pub(crate) fn given_next(limit: u64, given: u64, size: u64, align: u64) -> u64
    requires { 0 < align }
    ensures { result ≡ steps.given_next limit given size align }
{
    match room(limit, given, size, align) {
        Some(place) => place + size,
        None => given,
    }
}

/// How often `size` goes into `n`. No division is made where `size` is a power of two, as pages mostly are.
pub(crate) fn quotient(n: u64, size: u64) -> u64
    requires { 0 < size }
    ensures { result ≡ n / size }
{
    let shift = size.trailing_zeros();
    if 1 << shift == size {
        n >> shift
    } else {
        n / size
    }
}
