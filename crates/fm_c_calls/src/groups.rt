ghost use Rattle.std.specs.Prelude.{◌≡◌, ◌≤◌, IfOk, IfErr};
ghost use Rattle.fm_group_lists.specs.Groups.{AreGroups};
ghost use Rattle.fm_group.specs.Values.{all_numbers};
ghost use Rattle.fm_c_calls.specs.Grouped.{HasValues, IsGrouping, IsNoGrouping, PutsGroups, counted_of, once};
ghost use Rattle.fm_c_calls.specs.Whole.{AreWhole};

use crate::output::put_front;
use crate::place::resolve_in;
use crate::values::{count_of, number_of};
use crate::whole::{check_records, read_record_layout};
use fm_base::Refusal;
use fm_group_lists::Groups;
use fm_path::Resolved;
use std::alloc::{AllocError, Global};

/// A number, and how often it comes.
#[repr(C)]
#[derive(Clone, Copy, Debug, PartialEq, Eq)]
pub struct Counted {
    pub number: i64,
    pub count: u64,
}

/// Puts each number that comes among the values of a path in records, of the layout whose JSON the bytes are, and how
/// often, in rising order of the numbers: what `fmem group` prints, without its total and its limit of 1,048,576 values.
///
/// Refused, in this order: as `layout_from_json` of `fm_ljson`; as `check_record` of `fm_records_query`; as `resolve_in`;
/// as `check_records`. `Memory` may come at any time. A refused call puts nothing.
pub fn put_groups(
    alloc: Global,
    json: &[u8],
    path: &[u8],
    records: &[u8],
    out: &mut [Counted],
) -> Result<u64, Refusal>
    ensures { PutsGroups json.now path.now records.now out.old out.new result }
{
    let path = read_grouping(alloc, json, path)?;
    match check_records(records, path.root_size()) {
        Ok(()) => {}
        Err(refusal) => return Err(refusal),
    }
    let Ok(groups) = groups_over(alloc, &path, records) else {
        return Err(Refusal::Memory);
    };
    let Ok(counted) = counted_of(alloc, &groups) else {
        return Err(Refusal::Memory);
    };
    Ok(put_front(out, &counted))
}

/// The path whose values are grouped. Refused as `put_groups`, but for the records.
pub fn read_grouping(alloc: Global, json: &[u8], path: &[u8]) -> Result<Resolved, Refusal>
    ensures grouping { IfOk result (IsGrouping json.now path.now) }
    ensures values { IfOk result HasValues }
    ensures refused { IfErr result (IsNoGrouping json.now path.now) }
{
    let layout = read_record_layout(alloc, json)?;
    resolve_in(alloc, &layout, path)
}

/// How often each number comes among the path's values in these bytes.
pub fn groups_over(alloc: Global, path: &Resolved, records: &[u8]) -> Result<Groups, AllocError>
    requires values { HasValues path.now }
    requires whole { AreWhole records.now path.now.root_size }
    ensures { IfOk result (AreGroups (all_numbers path.now records.now)) }
{
    let each = pair_each(alloc, path, records)?;
    Groups::of(alloc, each)
}

/// The number of each value, with a count of 1.
fn pair_each(alloc: Global, path: &Resolved, records: &[u8]) -> Result<Vec<(i64, u64)>, AllocError>
    requires values { HasValues path.now }
    requires whole { AreWhole records.now path.now.root_size }
    ensures { IfOk result (λ pairs. pairs.items ≡ once (all_numbers path.now records.now)) }
{
    let mut pairs = Vec::new(alloc);
    for n in 0..count_of(path, records) {
        pairs.push((number_of(path, records, n), 1))?;
    }
    Ok(pairs)
}

fn counted_of(alloc: Global, groups: &Groups) -> Result<Vec<Counted>, AllocError>
    ensures { IfOk result (λ counted. counted.items ≡ counted_of groups.now) }
{
    let mut counted = Vec::new(alloc);
    for k in 0..groups.len() {
        let (number, count) = groups.at(k);
        counted.push(Counted { number, count })?;
    }
    Ok(counted)
}
