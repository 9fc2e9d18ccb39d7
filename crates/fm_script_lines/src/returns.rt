ghost use Rattle.fm_script_lines.specs.Learnt.{CallRan, CanReturn, Leaves, stands_by};
ghost use Rattle.fm_script_text.specs.declared.command.Command.TheVariants as command;

use crate::outcome::LineOutcome;
use crate::reply::Reply;
use crate::table::Table;
use crate::tokens::{end_handle, end_hold};
use fm_arena::Shared;
use fm_path_text::NameText;
use std::sync::Wait;

/// `unhold HOLD`
pub(crate) fn unhold(m: &mut Shared, table: &mut Table, hold: &NameText) -> LineOutcome
    requires { CanReturn m.old table.old }
    ensures ran { CallRan m.old m.new (stands_by table.old) (command.Unhold hold.now) result }
    ensures leaves { Leaves m.old table.old table.new (command.Unhold hold.now) }
{
    let Some(hold) = table.take_hold(hold) else {
        return LineOutcome::plain(Reply::Skipped);
    };
    end_hold(m, hold);
    LineOutcome::plain(Reply::Fine)
}

/// `back HANDLE`
pub(crate) fn give_back<R: Wait>(
    rt: &R,
    m: &mut Shared,
    table: &mut Table,
    handle: &NameText,
) -> LineOutcome
    requires { CanReturn m.old table.old }
    ensures ran { CallRan m.old m.new (stands_by table.old) (command.Back handle.now) result }
    ensures leaves { Leaves m.old table.old table.new (command.Back handle.now) }
{
    let Some(handle) = table.take_handle(handle) else {
        return LineOutcome::plain(Reply::Skipped);
    };
    LineOutcome::plain(end_handle(rt, m, handle))
}
