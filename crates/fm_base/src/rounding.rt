ghost use Rattle.std.specs.Prelude.{◌≡◌, ◌<◌};
ghost use Rattle.fm_base.specs.Machine.{rounded_up};

/// The least multiple of `align` that is at least `n`.
///
/// Of a power of two by a mask: a division would cost more than all else of an allocation.
pub fn round_up(n: u64, align: u64) -> u128
    requires { 0 < align }
    ensures { result ≡ rounded_up n align }
{
    let below = u128::from(align - 1);
    let end = u128::from(n) + below;
    if align.is_power_of_two() {
        end & !below
    } else {
        let align = u128::from(align);
        end / align * align
    }
}
