ghost use Rattle.std.specs.Prelude.{◌≡◌, ◌%◌, ◌*◌, ◌+◌, ◌/◌, ◌<◌, ◌≤◌, ◌^◌, length};
ghost use Rattle.fm_lanes.specs.Kind.{width_of};
ghost use Rattle.fm_path_meaning.specs.Steady.{IsInside, IsSteady};
ghost use Rattle.fm_path_meaning.specs.Walk.{offset_at, reach};
ghost use Rattle.fm_records_query.specs.Plan.{value_count};
ghost use Rattle.fm_records.specs.Values.{number_there};
ghost use Rattle.fm_group.specs.Values.{count_of, indices_at, number_in};
ghost use Rattle.fm_c_calls.specs.Grouped.{HasValues, values_in};
ghost use Rattle.fm_c_calls.specs.Whole.{AreWhole};

use byteorder::{ByteOrder, LittleEndian};
use fm_group::count_values;
use fm_lanes::{decode, turned};
use fm_path::{Dim, Resolved, ValueSpec};

/// How many values of the path are in these records.
pub fn count_of(path: &Resolved, records: &[u8]) -> u64
    requires values { HasValues path.now }
    requires whole { AreWhole records.now path.now.root_size }
    ensures { result ≡ count_of (values_in path.now records.now) }
{
    records.len() as u64 / path.root_size() * count_values(path.dims().as_slice())
}

/// The number of the n-th value: records in order, in one record in the order of index lists, the last index changing
/// fastest.
pub fn number_of(path: &Resolved, records: &[u8], n: u64) -> i64
    requires values { HasValues path.now }
    requires whole { AreWhole records.now path.now.root_size }
    requires below { n < count_of (values_in path.now records.now) }
    ensures { result ≡ number_in (values_in path.now records.now) records.now n }
{
    let dims = path.dims().as_slice();
    let each = count_values(dims);
    let offset = offset_of(path.offset(), dims, n % each);
    let place = n / each * path.root_size() + offset;
    number_there(records, path.value(), place as usize)
}

/// The number that the value's bytes from `at` on mean.
fn number_there(bytes: &[u8], value: &ValueSpec, at: usize) -> i64
    requires { at + width_of value.now.kind ≤ length bytes.now }
    ensures { result ≡ number_there value.now.kind value.now.order at bytes.now }
{
    let width = value.kind.width();
    let low = LittleEndian::read_uint(&bytes[at..at + width as usize], width as usize);
    decode(value.kind, turned(width, low, value.order)).number()
}

/// The offset of the n-th value of a record.
fn offset_of(at: u64, dims: &[Dim], n: u64) -> u64
    requires below { n < value_count dims.now }
    requires few { value_count dims.now < 2 ^ 64 }
    requires steady { IsSteady at dims.now (indices_at dims.now n) }
    ensures { result ≡ offset_at at dims.now (indices_at dims.now n) }
{
    match dims {
        [] => at,
        [dim, rest @ ..] => {
            let behind = count_values(rest);
            offset_of(reach_of(at, *dim, n / behind), rest, n % behind)
        }
    }
}

/// The offset so many steps further on, or back.
fn reach_of(at: u64, dim: Dim, index: u64) -> u64
    requires { IsInside at dim.stride index }
    ensures { result ≡ reach at dim.stride index }
{
    at.wrapping_add(dim.stride.cast_unsigned().wrapping_mul(index))
}
