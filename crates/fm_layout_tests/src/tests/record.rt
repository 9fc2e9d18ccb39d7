ghost use Rattle.fm_layout.specs.Name.{IsName};

use fm_base::Refusal;
use fm_lanes::ValueKind;
use fm_layout::Layout;
use std::alloc::Global;

/// Members that were made, or why not.
pub(crate) type Members = Result<Vec<Layout>, Refusal>;

/// The members with one more behind them.
pub(crate) fn add(members: Members, member: Result<Layout, Refusal>) -> Members {
    let mut members = members?;
    match members.push(member?) {
        Ok(()) => Ok(members),
        Err(_) => Err(Refusal::Memory),
    }
}

/// The members of a group of one.
pub(crate) fn one(alloc: Global, member: Layout) -> Members {
    add(Ok(Vec::new(alloc)), Ok(member))
}

/// The members of a group of two.
pub(crate) fn two(
    alloc: Global,
    first: Result<Layout, Refusal>,
    second: Result<Layout, Refusal>,
) -> Members {
    add(add(Ok(Vec::new(alloc)), first), second)
}

/// A struct of these.
pub(crate) fn structure(members: Members) -> Result<Layout, Refusal> {
    Layout::structure(members?)
}

/// A value under this name.
pub(crate) fn named(alloc: Global, kind: ValueKind, name: &str) -> Result<Layout, Refusal>
    requires { IsName name.now }
{
    Layout::value(kind).with_name(alloc, name)
}

/// Four bytes under their name.
fn tags(alloc: Global) -> Result<Layout, Refusal> {
    Layout::sequence(alloc, 4, Layout::value(ValueKind::Byte))?.with_name(alloc, "tags")
}

/// A record of 24 bytes: an id, a kind, a price and four tags.
pub(crate) fn sale(alloc: Global) -> Result<Layout, Refusal> {
    let id = named(alloc, ValueKind::Int, "id");
    let members = two(alloc, id, named(alloc, ValueKind::Short, "kind"));
    let members = add(members, Layout::padding(2));
    let members = add(members, named(alloc, ValueKind::Long, "price"));
    let members = add(members, tags(alloc));
    structure(add(members, Layout::padding(4)))
}
