ghost use Rattle.fm_layout.specs.Name.{IsName};

use crate::tests::handles::handle;
use crate::tests::segments::layout_of;
use fm_handle::VarHandle;
use fm_lanes::{Order, Value, ValueKind};
use fm_layout::Layout;
use std::alloc::Global;
use std::process::Abort;

/// A handle for a value of its own, with nothing round it.
pub(super) fn value<R: Abort>(rt: &R, alloc: Global, kind: ValueKind, order: Order) -> VarHandle {
    handle(rt, alloc, &Layout::value(kind).with_order(order), ".")
}

fn named<R: Abort>(rt: &R, alloc: Global, layout: Layout, name: &str) -> Layout
    requires { IsName name.now }
{
    layout.with_name(alloc, name).expect(rt, "a name")
}

fn pair<R: Abort>(rt: &R, alloc: Global, first: Layout, second: Layout) -> Vec<Layout> {
    let mut members = Vec::new(alloc);
    members.push(first).expect(rt, "memory");
    members.push(second).expect(rt, "memory");
    members
}

/// A byte `low` and this layout, in one place.
pub(super) fn either<R: Abort>(rt: &R, alloc: Global, one: Layout) -> Layout {
    let low = named(rt, alloc, Layout::value(ValueKind::Byte), "low");
    Layout::union_of(pair(rt, alloc, low, named(rt, alloc, one, "one")))
}

/// A row of four values and then one in a union with a byte, at any place.
pub(super) fn table<R: Abort>(rt: &R, alloc: Global, v: Value, order: Order) -> Layout {
    let items = Layout::sequence(alloc, 4, layout_of(rt, v, order, 1)).expect(rt, "items");
    let items = named(rt, alloc, items, "items");
    let either = either(rt, alloc, layout_of(rt, v, order, 1));
    let either = named(rt, alloc, either, "either");
    Layout::structure(pair(rt, alloc, items, either)).expect(rt, "a table")
}

/// Accounts of an int `id` and an int `amount`, behind a long that counts them: 32 bytes.
pub(super) fn accounts<R: Abort>(rt: &R, alloc: Global) -> Layout {
    let id = named(rt, alloc, Layout::value(ValueKind::Int), "id");
    let amount = named(rt, alloc, Layout::value(ValueKind::Int), "amount");
    let account = Layout::structure(pair(rt, alloc, id, amount)).expect(rt, "an account");
    let rows = Layout::sequence(alloc, 3, account).expect(rt, "rows");
    let count = named(rt, alloc, Layout::value(ValueKind::Long), "count");
    let rows = named(rt, alloc, rows, "rows");
    Layout::structure(pair(rt, alloc, count, rows)).expect(rt, "accounts")
}
