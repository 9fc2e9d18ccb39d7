ghost use Rattle.std.specs.Prelude.{◌≡◌, [], IfOk};
ghost use Rattle.fm_layout.specs.Parts.{IsValue as IsValueLayout};
ghost use Rattle.fm_script_text.specs.Syntax.{IsOfKind};
ghost use Rattle.fm_script_lines.specs.Calls.{IsHandleOf, IsValue, tree_of};

use fm_handle::VarHandle;
use fm_lanes::{Value, ValueKind};
use fm_layout::Layout;
use fm_path::resolve;
use fm_script_text::Cell;
use std::alloc::{AllocError, Global};

/// The value of this kind that the number is.
pub(crate) fn value_of(kind: ValueKind, number: i64) -> Value
    requires { IsOfKind kind number }
    ensures { IsValue kind number result }
{
    match kind {
        ValueKind::Byte => Value::Byte(number as i8),
        ValueKind::Boolean => Value::Boolean(number != 0),
        ValueKind::Char => Value::Char(number as u16),
        ValueKind::Short => Value::Short(number as i16),
        ValueKind::Int => Value::Int(number as i32),
        ValueKind::Long => Value::Long(number),
    }
}

/// The value's layout, of natural alignment.
pub(crate) fn layout_of(cell: &Cell) -> Layout
    ensures tree { result ≡ tree_of cell.now }
    ensures value { IsValueLayout result }
{
    Layout::value(cell.kind).with_order(cell.order)
}

/// A handle on that layout alone.
pub(crate) fn handle_of(alloc: Global, cell: &Cell) -> Result<VarHandle, AllocError>
    ensures { IfOk result (IsHandleOf cell.now) }
{
    match resolve(alloc, &layout_of(cell), &[]) {
        Ok(resolved) => Ok(VarHandle::of(resolved)),
        Err(_) => Err(AllocError),
    }
}
