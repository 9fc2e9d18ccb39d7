ghost use Rattle.std.specs.Prelude.{◌≡◌, ◌≤◌, IfOk};
ghost use Rattle.fm_group_lists.specs.Groups.{AreGroups};
ghost use Rattle.fm_group.specs.Values.{all_numbers};
ghost use Rattle.fm_top_pooled.specs.Asking.{HasPasses};
ghost use Rattle.fm_top_pooled.specs.Grouped.{CanGroup, HasValues, IsTableFor, ReadsValues, values_in};
ghost use Rattle.fm_top_pooled.specs.Stocked.{bytes_in_pool};

use crate::wanting::unless_wanting;
use fm_group::{CountTable, Groups, count_values};
use fm_group_crew::group_with;
use fm_io::Gate;
use fm_path::Resolved;
use fm_rule::{Pass, Pool};
use std::alloc::{AllocError, Global};
use std::sync::Wait;
use std::thread::Threads;

/// The most values that are grouped.
pub const VALUES_LIMIT: u64 = 1_048_576;

/// How many bytes a place of a table takes: a claim and a count.
const PLACE_SIZE: u64 = 16;

/// How many bytes the largest table has.
pub const TABLE_LIMIT: u64 = 2 * VALUES_LIMIT * PLACE_SIZE;

/// How many values of a path are in so many bytes of records.
pub fn values_in(path: &Resolved, size: u64) -> u64
    requires { HasValues path.now }
    ensures { result ≡ values_in path.now size }
{
    size / path.root_size() * count_values(path.dims().as_slice())
}

/// How many bytes a table for so many values has. It has the least power of two of places that is at least twice as
/// many, and at least one.
pub fn table_size(values: u64) -> u64
    requires { values ≤ VALUES_LIMIT }
    ensures table { IsTableFor values result }
    ensures short { result ≤ TABLE_LIMIT }
{
    PLACE_SIZE * (2 * values).next_power_of_two()
}

/// How often each number comes among the values that a table counts, by so many passes that are drawn for it.
pub fn group<R: Threads + Wait + Sync, G: Gate>(
    rt: &R,
    alloc: Global,
    pool: &Pool,
    pass: &mut Pass,
    table: &CountTable,
    threads: u32,
    gate: &G,
) -> Result<Groups, AllocError>
    requires can { CanGroup pool.now pass.old table.now }
    requires passes { HasPasses pass.old threads }
    ensures value { IfOk result (AreGroups (all_numbers table.now.values.path
        (bytes_in_pool pass.old table.now.values.records))) }
    ensures read { IfOk result (λ _. ReadsValues pool.now pass.old pass.new table.now.values) }
{
    let found = group_with(rt, alloc, pool, pass, table, threads, gate);
    // Both arenas are alive and shared, there are passes enough, and places enough that are free.
    unless_wanting(found)
}
