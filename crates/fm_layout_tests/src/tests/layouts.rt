use crate::tests::compared::same;
use crate::tests::record::{Members, add, one, sale, structure, two};
use crate::tests::rows::answers;
use crate::tests::told::{told, whole};
use fm_base::Refusal;
use fm_lanes::{Order, ValueKind};
use fm_layout::{Layout, is_name};
use std::alloc::Global;
use std::process::Abort;

/// The greatest size and alignment.
const LIMIT: u64 = 1_099_511_627_776;

/// Stops where what was made isn't this: the layout, or how its refusal is printed.
fn makes<R: Abort>(rt: &R, alloc: Global, made: Result<Layout, Refusal>, wanted: &str) {
    same(rt, told(alloc, made).as_str(), wanted);
}

/// What the value of a kind of this name is, and its form in the other order.
fn value_told(alloc: Global, name: &str) -> String {
    match ValueKind::named(name) {
        Some(kind) => {
            let little = told(alloc, Ok(Layout::value(kind)));
            let form = Layout::value(kind).with_order(Order::Big).form();
            whole(alloc, format!(in alloc; "{little} {form:?}"))
        }
        None => String::new(alloc),
    }
}

/// Kinds of values, and what the value of each is.
const VALUES: &str = "\
byte -> Value(Byte, Little) 1 1 . Value(Byte, Big)
boolean -> Value(Boolean, Little) 1 1 . Value(Boolean, Big)
char -> Value(Char, Little) 2 2 . Value(Char, Big)
short -> Value(Short, Little) 2 2 . Value(Short, Big)
int -> Value(Int, Little) 4 4 . Value(Int, Big)
long -> Value(Long, Little) 8 8 . Value(Long, Big)";

#[test]
fn values_are_natural(rt: HostRuntime) {
    answers(&rt, rt.alloc(), value_told, VALUES);
}

#[test]
fn padding_has_bytes(rt: HostRuntime) {
    let alloc = rt.alloc();
    makes(&rt, alloc, Layout::padding(0), "23");
    makes(&rt, alloc, Layout::padding(LIMIT + 1), "20");
    makes(
        &rt,
        alloc,
        Layout::padding(LIMIT),
        "Padding 1099511627776 1 .",
    );
}

/// Stops where the layout has no such member, or no name at it.
fn has_member<R: Abort>(rt: &R, layout: &Layout, i: u64, wanted: &str) {
    let name = match layout.member(i) {
        Some(member) => member.name().unwrap_or("no name"),
        None => "no member",
    };
    same(rt, (name, i), (wanted, i));
}

/// The size of the layout's element.
fn element_size(layout: &Layout) -> Option<u64> {
    match layout.element() {
        Some(element) => Some(element.size()),
        None => None,
    }
}

#[test]
fn a_record_has_its_members(rt: HostRuntime) {
    let alloc = rt.alloc();
    makes(&rt, alloc, sale(alloc), "Struct(6) 24 8 .");
    let sale = sale(alloc).expect(&rt, "a layout");
    same(&rt, sale.name().is_none(), true);
    has_member(&rt, &sale, 3, "price");
    has_member(&rt, &sale, 6, "no member");
    same(&rt, element_size(&sale), None);
}

/// So many bytes.
fn tags(alloc: Global, count: u64) -> Result<Layout, Refusal> {
    Layout::sequence(alloc, count, Layout::value(ValueKind::Byte))
}

#[test]
fn a_sequence_has_its_element(rt: HostRuntime) {
    let alloc = rt.alloc();
    makes(&rt, alloc, tags(alloc, 4), "Sequence(4) 4 1 .");
    let tags = tags(alloc, 4).expect(&rt, "a layout");
    same(&rt, element_size(&tags), Some(1));
    has_member(&rt, &tags, 0, "no member");
}

/// Whether the layout's copy is equal to it, and under another name isn't.
fn copies(alloc: Global, layout: &Layout) -> Result<(bool, bool), Refusal> {
    let copy = layout.try_clone(alloc)?;
    let equal = copy == *layout;
    Ok((equal, copy.with_name(alloc, "sale")? != *layout))
}

#[test]
fn a_copy_is_equal(rt: HostRuntime) {
    let sale = sale(rt.alloc()).expect(&rt, "a layout");
    same(&rt, copies(rt.alloc(), &sale), Ok((true, true)));
}

/// A struct of an int and a long, with so many bytes of padding between them.
fn padded(alloc: Global, between: u64) -> Result<Layout, Refusal> {
    let int = Layout::value(ValueKind::Int);
    let members = two(alloc, Ok(int), Layout::padding(between));
    structure(add(members, Ok(Layout::value(ValueKind::Long))))
}

/// A struct of values of two kinds.
fn pair(alloc: Global, first: ValueKind, second: ValueKind) -> Result<Layout, Refusal> {
    structure(two(alloc, Ok(Layout::value(first)), Ok(Layout::value(second))))
}

/// A struct of nothing.
fn empty(alloc: Global) -> Result<Layout, Refusal> {
    Layout::structure(Vec::new(alloc))
}

#[test]
fn structs_put_in_no_padding(rt: HostRuntime) {
    let alloc = rt.alloc();
    let int_and_long = pair(alloc, ValueKind::Int, ValueKind::Long);
    makes(&rt, alloc, int_and_long, "21 1 4");
    makes(&rt, alloc, padded(alloc, 4), "Struct(3) 16 8 .");
    makes(&rt, alloc, empty(alloc), "Struct(0) 0 1 .");
}

/// A struct of paddings, as many bytes as may be.
fn full(alloc: Global) -> Result<Layout, Refusal> {
    structure(two(alloc, Layout::padding(8), Layout::padding(LIMIT - 8)))
}

/// That, and one byte.
fn past(alloc: Global) -> Result<Layout, Refusal> {
    structure(two(alloc, full(alloc), Layout::padding(1)))
}

#[test]
fn structs_end_at_the_limit(rt: HostRuntime) {
    let alloc = rt.alloc();
    makes(&rt, alloc, full(alloc), "Struct(2) 1099511627776 1 .");
    makes(&rt, alloc, past(alloc), "20");
}

/// A union of these.
fn union_of(members: Members) -> Result<Layout, Refusal> {
    Ok(Layout::union_of(members?))
}

/// A union of values of two kinds.
fn either(alloc: Global, first: ValueKind, second: ValueKind) -> Result<Layout, Refusal> {
    union_of(two(alloc, Ok(Layout::value(first)), Ok(Layout::value(second))))
}

#[test]
fn unions_are_as_large_as_the_greatest(rt: HostRuntime) {
    let alloc = rt.alloc();
    let none = union_of(Ok(Vec::new(alloc)));
    makes(&rt, alloc, none, "Union(0) 0 1 .");
    let byte_or_long = either(alloc, ValueKind::Byte, ValueKind::Long);
    makes(&rt, alloc, byte_or_long, "Union(2) 8 8 .");
}

/// So many longs.
fn longs(alloc: Global, count: u64) -> Result<Layout, Refusal> {
    Layout::sequence(alloc, count, Layout::value(ValueKind::Long))
}

/// Two structs of a long and an int.
fn ragged(alloc: Global) -> Result<Layout, Refusal> {
    Layout::sequence(alloc, 2, pair(alloc, ValueKind::Long, ValueKind::Int)?)
}

#[test]
fn sequences_repeat_their_element(rt: HostRuntime) {
    let alloc = rt.alloc();
    makes(&rt, alloc, longs(alloc, 0), "Sequence(0) 0 8 .");
    makes(&rt, alloc, longs(alloc, 3), "Sequence(3) 24 8 .");
    makes(
        &rt,
        alloc,
        longs(alloc, LIMIT / 8),
        "Sequence(137438953472) 1099511627776 8 .",
    );
    makes(&rt, alloc, longs(alloc, LIMIT), "20");
    makes(&rt, alloc, longs(alloc, u64::MAX), "20");
    makes(&rt, alloc, ragged(alloc), "22");
}

/// A struct of a long under this alignment.
fn aligned(alloc: Global, alignment: u64) -> Result<Layout, Refusal> {
    let members = one(alloc, Layout::value(ValueKind::Long))?;
    Layout::structure(members)?.with_alignment(alignment)
}

/// A struct of nothing under the greatest alignment.
fn most(alloc: Global) -> Result<Layout, Refusal> {
    Layout::structure(Vec::new(alloc))?.with_alignment(LIMIT)
}

#[test]
fn alignments_are_powers_of_two(rt: HostRuntime) {
    let alloc = rt.alloc();
    makes(&rt, alloc, aligned(alloc, 0), "9");
    makes(&rt, alloc, aligned(alloc, 3), "9");
    makes(&rt, alloc, aligned(alloc, 3_298_534_883_328), "9");
    makes(&rt, alloc, aligned(alloc, 2_199_023_255_552), "20");
    makes(&rt, alloc, aligned(alloc, 4), "24 8");
    makes(&rt, alloc, most(alloc), "Struct(0) 0 1099511627776 .");
    let least = Layout::value(ValueKind::Int).with_alignment(1);
    makes(&rt, alloc, least, "Value(Int, Little) 4 1 .");
}

/// A name of 64 bytes.
const LONGEST: &str = "abcdefghijklmnopqrstuvwxyz_ABCDEFGHIJKLMNOPQRSTUVWXYZ_0123456789";

/// One of 65.
const TOO_LONG: &str = "abcdefghijklmnopqrstuvwxyz_ABCDEFGHIJKLMNOPQRSTUVWXYZ_0123456789x";

/// Stops where the text is a name, and isn't to be one, or the other way round.
fn is_named<R: Abort>(rt: &R, text: &str, wanted: bool) {
    same(rt, (is_name(text), text), (wanted, text));
}

/// An int that is named twice.
fn renamed(alloc: Global) -> Result<Layout, Refusal> {
    let first = Layout::value(ValueKind::Int).with_name(alloc, "first")?;
    first.with_name(alloc, "second")
}

#[test]
fn names_are_short_words(rt: HostRuntime) {
    is_named(&rt, "", false);
    is_named(&rt, "_", true);
    is_named(&rt, "price2", true);
    is_named(&rt, "2price", false);
    is_named(&rt, "unit price", false);
    is_named(&rt, "größe", false);
    is_named(&rt, LONGEST, true);
    is_named(&rt, TOO_LONG, false);
    same(&rt, LONGEST.len(), 64);
    makes(
        &rt,
        rt.alloc(),
        renamed(rt.alloc()),
        "Value(Int, Little) 4 4 .second",
    );
}

/// A union of the layout and its copy.
fn doubled(alloc: Global, layout: Layout) -> Result<Layout, Refusal> {
    let copy = layout.try_clone(alloc);
    union_of(two(alloc, Ok(layout), copy))
}

/// A layout of 65,536 layouts, 40 levels deep.
fn wide(alloc: Global) -> Result<Layout, Refusal> {
    let mut layout = Layout::value(ValueKind::Byte);
    for _ in 0..15 {
        layout = doubled(alloc, layout)?;
    }
    within(alloc, layout, 24)
}

/// The layout in so many sequences of one.
fn within(alloc: Global, layout: Layout, levels: u64) -> Result<Layout, Refusal> {
    let mut layout = layout;
    for _ in 0..levels {
        layout = Layout::sequence(alloc, 1, layout)?;
    }
    Ok(layout)
}

/// Whether the layout's copy is equal to it, and to the other.
fn compared(alloc: Global, layout: &Layout, other: &Layout) -> Result<(bool, bool), Refusal> {
    let copy = layout.try_clone(alloc)?;
    Ok((copy == *layout, copy == *other))
}

/// Cloning, comparing and dropping a layout of 65,536 layouts, 40 levels deep, and one of 10,000 levels.
#[test]
fn deep_layouts_take_little_stack(rt: HostRuntime) {
    let alloc = rt.alloc();
    let wide = wide(alloc).expect(&rt, "a layout");
    let byte = Layout::value(ValueKind::Byte);
    let deep = within(alloc, byte, 10_000).expect(&rt, "a layout");
    same(&rt, compared(alloc, &wide, &deep), Ok((true, false)));
    same(&rt, compared(alloc, &deep, &wide), Ok((true, false)));
}
