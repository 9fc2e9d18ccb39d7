ghost use Rattle.std.specs.Prelude.{◌≡◌, ◌%◌, ◌*◌, ◌^◌, ◌<◌, ◌≤◌, ◌∷◌, List};
ghost use Rattle.fm_path_meaning.specs.Steady.{IsInside, IsSteady};
ghost use Rattle.fm_path_meaning.specs.Walk.{offset_at, reach};
ghost use Rattle.fm_records_query.specs.Plan.{value_count};
ghost use Rattle.fm_group.specs.Values.{indices_at};

use fm_path::Dim;

/// How many lists of indices there are, one index below each bound, wrapping at 2^64.
#[cycle(count)]
pub fn count_values(dims: &[Dim]) -> u64
    ensures { result ≡ value_count dims.now % 2 ^ 64 }
{
    match dims {
        [] => 1,
        [dim, rest @ ..] => dim.bound.wrapping_mul(count_values(rest)),
    }
}

/// The offset of the n-th value of a record.
pub(crate) fn offset_of(at: u64, dims: &[Dim], n: u64) -> u64
    requires below { n < value_count dims.now }
    requires few { value_count dims.now < 2 ^ 64 }
    requires steady { IsSteady at dims.now (indices_at dims.now n) }
    ensures { result ≡ offset_at at dims.now (indices_at dims.now n) }
{
    match dims {
        [] => at,
        [dim, rest @ ..] => {
            let behind = count_values(rest);
            offset_of(reach_of(at, *dim, n / behind), rest, n % behind)
        }
    }
}

/// The offset so many steps further on, or back.
fn reach_of(at: u64, dim: Dim, index: u64) -> u64
    requires { IsInside at dim.stride index }
    ensures { result ≡ reach at dim.stride index }
{
    at.wrapping_add(dim.stride.cast_unsigned().wrapping_mul(index))
}
