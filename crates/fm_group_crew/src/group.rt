ghost use Rattle.std.specs.Prelude.{◌≡◌, true, false};
ghost use Rattle.fm_gate.specs.Needs.{IsOutside};
ghost use Rattle.fm_group.specs.Table.{CanTable};
ghost use Rattle.fm_group_crew.specs.{Grouped.{CanGroupWith, GroupedWith}, Tasks.{IsForAll, IsForOne}};

use crate::dealing::deal;
use crate::grouping::Grouping;
use fm_base::Refusal;
use fm_group::{CountTable, Groups};
use fm_io::Gate;
use fm_rule::{Pass, Pool};
use fm_workers_crew::work_crew_then;
use std::alloc::Global;
use std::sync::Wait;
use std::thread::Threads;

/// How often each number comes among all values that a table counts, by so many passes that are drawn for it, each in a
/// thread of its own where one can be started. Each pass counts one share of the values, which differ by at most one in
/// how many they are, into the table that all of them share. Then all are gathered but the last, which has seen what
/// they did, and reads the table. It is gathered too, and so are all after a refusal. The passes make all accesses.
///
/// Who begins to count begins with a table whose bytes are 0. Workers are numbered from 1 in the order of the draws. Its
/// share is a worker's one call of the gate, call 0.
///
/// Refused, in this order: `WrongThread`, exactly where an arena of the two segments is confined; `Memory`, or `NoPass`
/// where a draw finds no free number, or no draw can be counted any more; then `Closed` or `TableFull`, as the first
/// pass was, in the order of the draws, that was refused at a value, and nobody reads; then `Closed` or `Memory`, as the
/// reading was. What the table then holds is open. Numbers that were drawn are free again, but those of their last term.
pub fn group_with<R: Threads + Wait + Sync, G: Gate>(
    rt: &R,
    alloc: Global,
    pool: &Pool,
    pass: &mut Pass,
    t: &CountTable,
    threads: u32,
    gate: &G,
) -> Result<Groups, Refusal>
    requires { CanGroupWith pool.now pass.old t.now threads }
    ensures grouped { GroupedWith threads pass.old pass.new t.now result }
    ensures outside { IsOutside pool.now pass.new }
{
    if !is_for_all(t) {
        return Err(Refusal::WrongThread);
    }
    let Ok(mut shares) = deal(alloc, t.values().len(), threads) else {
        return Err(Refusal::Memory);
    };
    let mut grouping = Grouping {
        rt,
        gate,
        table: t,
        groups: Err(Refusal::Memory),
    };
    match work_crew_then(rt, alloc, pool, pass, &mut grouping, &mut shares) {
        Ok(()) => grouping.groups,
        Err(refusal) => Err(refusal),
    }
}

/// Whether neither arena is confined.
fn is_for_all(t: &CountTable) -> bool
    ensures can { CanTable t.now }
    ensures yes { result ≡ true → IsForAll t.now }
    ensures no { result ≡ false → IsForOne t.now }
{
    !t.segment().arena().is_confined() && !t.values().records().arena().is_confined()
}
