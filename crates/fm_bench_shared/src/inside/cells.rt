//! The loops over values and bytes of a table, each in one visit.
ghost use Rattle.std.specs.Prelude.{◌≡◌, None, length};
ghost use Rattle.fm_visit.specs.Learnt.{IsIn};
ghost use Rattle.fm_bench_shared.specs.Ready.{CanAccess};

use crate::cells::handle_of;
use crate::memories::Asked;
use crate::table::{COLUMNS, ROWS, table};
use fm_base::{Memory, Refusal};
use fm_handle::VarHandle;
use fm_lanes::{ValueKind, encode};
use fm_layout::Layout;
use fm_segment::Segment;
use fm_visit::Visit;
use std::alloc::Global;
use std::sync::Wait;

/// Visits a table once, for the loop of this name so often, and answers what it found, joined by exclusive or.
pub fn visited<R: Wait, M: Memory>(
    rt: &R,
    alloc: Global,
    m: &mut M,
    asked: &Asked,
) -> Result<u64, Refusal>
    requires { (M.view m.old).inside ≡ None }
{
    let cells = table(rt, m, asked.count)?;
    match asked.what.as_str() {
        "visit-known" => visit_known(m, &cells, asked.count),
        "visit-words" => visit_words(m, &cells, asked.count),
        "visit-bytes" => visit_bytes(m, &cells, asked.count),
        _ => visit_handles(m, &cells, &handle_of(alloc, &asked.text)?, asked.count),
    }
}

/// Longs, at offsets in the segment. The compiler knows their layout, and that nobody else has the segment.
fn visit_known<M: Memory>(m: &mut M, cells: &Segment, count: u64) -> Result<u64, Refusal>
    requires { CanAccess (M.view m.old) cells.now }
{
    let own = *cells;
    let visit = Visit::enter(m, own.arena())?;
    let joined = known(m, &visit, &own, count);
    visit.leave(m);
    joined
}

fn known<M: Memory>(m: &mut M, visit: &Visit, cells: &Segment, count: u64) -> Result<u64, Refusal>
    requires { IsIn (M.view m.old) visit.now.arena cells.now }
    ensures { IsIn (M.view m.new) visit.now.arena cells.now }
{
    let long = Layout::value(ValueKind::Long);
    let mut joined: u64 = 0;
    for turn in 0..count {
        let cell = joined.wrapping_add(turn) % (ROWS * COLUMNS);
        joined ^= encode(visit.get(m, cells, &long, 8 * cell)?);
    }
    Ok(joined)
}

/// The same through a handle, by row and column.
fn visit_handles<M: Memory>(
    m: &mut M,
    cells: &Segment,
    handle: &VarHandle,
    count: u64,
) -> Result<u64, Refusal>
    requires can { CanAccess (M.view m.old) cells.now }
    requires steps { length handle.now.dims ≡ 2 }
{
    let own = *cells;
    let visit = Visit::enter(m, own.arena())?;
    let joined = handles(m, &visit, &own, handle, count);
    visit.leave(m);
    joined
}

fn handles<M: Memory>(
    m: &mut M,
    visit: &Visit,
    cells: &Segment,
    handle: &VarHandle,
    count: u64,
) -> Result<u64, Refusal>
    requires can { IsIn (M.view m.old) visit.now.arena cells.now }
    requires steps { length handle.now.dims ≡ 2 }
    ensures { IsIn (M.view m.new) visit.now.arena cells.now }
{
    let mut joined: u64 = 0;
    for turn in 0..count {
        let cell = joined.wrapping_add(turn) % (ROWS * COLUMNS);
        let indices = [cell / COLUMNS, cell % COLUMNS];
        joined ^= encode(visit.get_by(m, handle, cells, 0, &indices)?);
    }
    Ok(joined)
}

/// The whole table into a slice of words.
fn visit_words<M: Memory>(m: &mut M, cells: &Segment, count: u64) -> Result<u64, Refusal>
    requires { CanAccess (M.view m.old) cells.now }
{
    let own = *cells;
    let visit = Visit::enter(m, own.arena())?;
    let joined = words(m, &visit, &own, count);
    visit.leave(m);
    joined
}

fn words<M: Memory>(m: &mut M, visit: &Visit, cells: &Segment, count: u64) -> Result<u64, Refusal>
    requires { IsIn (M.view m.old) visit.now.arena cells.now }
    ensures { IsIn (M.view m.new) visit.now.arena cells.now }
{
    let mut into = [0; 8_192];
    let mut joined: u64 = 0;
    for turn in 0..count {
        visit.get_words(m, cells, 0, &mut into)?;
        joined ^= into[(turn % 8_192) as usize];
    }
    Ok(joined)
}

/// The same into a slice of bytes.
fn visit_bytes<M: Memory>(m: &mut M, cells: &Segment, count: u64) -> Result<u64, Refusal>
    requires { CanAccess (M.view m.old) cells.now }
{
    let own = *cells;
    let visit = Visit::enter(m, own.arena())?;
    let joined = bytes(m, &visit, &own, count);
    visit.leave(m);
    joined
}

fn bytes<M: Memory>(m: &mut M, visit: &Visit, cells: &Segment, count: u64) -> Result<u64, Refusal>
    requires { IsIn (M.view m.old) visit.now.arena cells.now }
    ensures { IsIn (M.view m.new) visit.now.arena cells.now }
{
    let mut into = [0; 65_536];
    let mut joined: u64 = 0;
    for turn in 0..count {
        visit.get_bytes(m, cells, 0, &mut into)?;
        joined ^= u64::from(into[(turn % 65_536) as usize]);
    }
    Ok(joined)
}
