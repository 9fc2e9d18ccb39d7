ghost use Rattle.std.specs.Prelude.{IfOk, OnErr};
ghost use Rattle.fm_script_lines.specs.Learnt.{AfterLine, CallRan, CanRunLine, Leaves, MadeNoCall, stands_by};

use crate::accesses::{get, set};
use crate::arenas::{ask, close, open};
use crate::blocks::{copy, fill, mismatch};
use crate::outcome::LineOutcome;
use crate::reply::Reply;
use crate::returns::{give_back, unhold};
use crate::segments::{allocate, read_only, slice};
use crate::table::Table;
use crate::tokens::{again, hold};
use crate::updates::{add, exchange};
use fm_arena::Shared;
use fm_script_text::Command;
use std::alloc::{AllocError, AllocGlobal, Global};
use std::random::RandomSource;
use std::sync::Wait;

/// Runs a pass's next line: the call that its command names, on what the names that it uses stand for. Where one stands
/// for nothing, no call is made and the reply is `Skipped`. A refused call is a reply too.
///
/// Memory may be wanting to `add` and `cas` alone, whose handle takes memory of its own. Then no call was made.
pub fn run_line<R: Wait + RandomSource + AllocGlobal>(
    rt: &R,
    alloc: Global,
    m: &mut Shared,
    table: &mut Table,
    command: &Command,
) -> Result<Reply, AllocError>
    requires { CanRunLine m.old table.old command.now }
    ensures { AfterLine m.old m.new table.old table.new command.now result }
{
    let out = call(rt, alloc, m, table, command)?;
    Ok(table.take_in(out))
}

/// The line's call, and what it came to. A hold or a handle that it gives back is taken out of the table.
#[tactic(auto, using(crate::proofs::Returning::leaves_kept))]
fn call<R: Wait + RandomSource + AllocGlobal>(
    rt: &R,
    alloc: Global,
    m: &mut Shared,
    table: &mut Table,
    command: &Command,
) -> Result<LineOutcome, AllocError>
    requires can { CanRunLine m.old table.old command.now }
    ensures ran { IfOk result (CallRan m.old m.new (stands_by table.old) command.now) }
    ensures leaves { Leaves m.old table.old table.new command.now }
    ensures no_call { OnErr result (MadeNoCall m.old m.new table.old table.new command.now) }
{
    match command {
        Command::Open { kind, .. } => Ok(open(rt, m, *kind)),
        Command::Alloc {
            arena,
            size,
            align,
            ..
        } => Ok(allocate(rt, m, table.at(arena), *size, *align)),
        Command::Slice {
            segment,
            offset,
            size,
            ..
        } => Ok(slice(table.at(segment), *offset, *size)),
        Command::Readonly { segment, .. } => Ok(read_only(table.at(segment))),
        Command::Get(cell) => Ok(get(m, table.at(&cell.segment), cell)),
        Command::Set(cell, value) => Ok(set(rt, m, table.at(&cell.segment), cell, *value)),
        Command::Add(cell, value) => add(rt, alloc, m, table.at(&cell.segment), cell, *value),
        Command::Cas(cell, old, new) => {
            exchange(rt, alloc, m, table.at(&cell.segment), cell, *old, *new)
        }
        Command::Fill { segment, byte } => Ok(fill(rt, m, table.at(segment), *byte)),
        Command::Copy { source, target } => Ok(copy(rt, m, table.at(source), table.at(target))),
        Command::Mismatch { segment, other } => Ok(mismatch(m, table.at(segment), table.at(other))),
        Command::Alive { arena } => Ok(ask(m, table.at(arena))),
        Command::Hold { arena, .. } => Ok(hold(rt, m, table.at(arena))),
        Command::Unhold { hold } => Ok(unhold(m, table, hold)),
        Command::Again { handle, .. } => Ok(again(rt, m, table.handle(handle))),
        Command::Back { handle } => Ok(give_back(rt, m, table, handle)),
        Command::Close { arena, by } => Ok(close(rt, m, table.at(arena), *by)),
    }
}
