//! Layouts of records, and queries over them.
ghost use Rattle.fm_layout.specs.Name.{IsName};

use crate::compared::same;
use fm_layout::Layout;
use fm_records::{Query, check_record, parse_query};
use std::alloc::AllocGlobal;
use std::process::Abort;

pub(crate) fn sequence<R: Abort + AllocGlobal>(rt: &R, count: u64, element: Layout) -> Layout {
    Layout::sequence(rt.alloc(), count, element).expect(rt, "a sequence")
}

pub(crate) fn structure<R: Abort>(rt: &R, members: Vec<Layout>) -> Layout {
    Layout::structure(members).expect(rt, "a struct")
}

/// Adds a member behind the others.
pub(crate) fn push<R: Abort>(rt: &R, members: &mut Vec<Layout>, member: Layout) {
    same(rt, members.push(member).is_ok(), true);
}

pub(crate) fn push_padding<R: Abort>(rt: &R, members: &mut Vec<Layout>, size: u64) {
    push(rt, members, Layout::padding(size).expect(rt, "a padding"));
}

pub(crate) fn push_named<R: Abort + AllocGlobal>(
    rt: &R,
    members: &mut Vec<Layout>,
    name: &str,
    member: Layout,
)
    requires { IsName name.now }
{
    let member = member.with_name(rt.alloc(), name).expect(rt, "a name");
    push(rt, members, member);
}

/// The query of this text over records of this layout.
pub(crate) fn query_over<R: Abort + AllocGlobal>(rt: &R, text: &str, layout: &Layout) -> Query {
    check_record(layout).expect(rt, "a record");
    parse_query(rt.alloc(), text, layout).expect(rt, "a query")
}
