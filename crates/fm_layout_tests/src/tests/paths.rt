use crate::tests::compared::same;
use crate::tests::record::{named, sale, structure, two};
use crate::tests::rows::answers;
use crate::tests::told::{layout_told, refusal_told, whole};
use fm_base::Refusal;
use fm_lanes::{Order, ValueKind};
use fm_layout::Layout;
use fm_path::{Resolved, byte_offset, list_places, parse_path, resolve, select};
use std::alloc::Global;

/// Where the path of this text leads to in the layout.
fn resolved_at(alloc: Global, layout: &Layout, text: &str) -> Result<Resolved, Refusal> {
    let path = parse_path(alloc, text)?;
    resolve(alloc, layout, &path)
}

/// The value's offset, kind and order, the root's size and alignment, and the open indices.
fn value_told(alloc: Global, resolved: &Resolved) -> String {
    let (offset, value) = (resolved.offset(), resolved.value());
    let (kind, order) = (value.kind, value.order);
    let (size, alignment) = (resolved.root_size(), resolved.root_alignment());
    let dims = resolved.dims().as_slice();
    whole(
        alloc,
        format!(in alloc; "{offset} {kind:?} {order:?} in {size} {alignment} {dims:?}"),
    )
}

/// Where the path of this text leads to in what was made.
fn resolved_in(
    alloc: Global,
    made: Result<Layout, Refusal>,
    text: &str,
) -> Result<Resolved, Refusal> {
    match made {
        Ok(layout) => resolved_at(alloc, &layout, text),
        Err(refusal) => Err(refusal),
    }
}

/// That, or how the refusal is printed.
fn path_told(alloc: Global, made: Result<Layout, Refusal>, text: &str) -> String {
    match resolved_in(alloc, made, text) {
        Ok(resolved) => value_told(alloc, &resolved),
        Err(refusal) => refusal_told(alloc, refusal),
    }
}

/// Where the path leads to in a sale.
fn in_a_sale(alloc: Global, text: &str) -> String {
    path_told(alloc, sale(alloc), text)
}

/// Paths to values of a sale.
const VALUES: &str = "\
.id -> 0 Int Little in 24 8 []
.#1 -> 4 Short Little in 24 8 []
.price -> 8 Long Little in 24 8 []
.tags[3] -> 19 Byte Little in 24 8 []
.tags[] -> 16 Byte Little in 24 8 [Dim { stride: 1, bound: 4 }]";

#[test]
fn resolves_to_the_value(rt: HostRuntime) {
    answers(&rt, rt.alloc(), in_a_sale, VALUES);
}

/// Five values.
fn five(alloc: Global, kind: ValueKind) -> Result<Layout, Refusal> {
    Layout::sequence(alloc, 5, Layout::value(kind))
}

/// Where the path leads to in five ints.
fn in_ints(alloc: Global, text: &str) -> String {
    path_told(alloc, five(alloc, ValueKind::Int), text)
}

/// Paths to five ints.
const INTS: &str = "\
[] -> 0 Int Little in 20 4 [Dim { stride: 4, bound: 5 }]
[1:2] -> 4 Int Little in 20 4 [Dim { stride: 8, bound: 2 }]
[4:-2] -> 16 Int Little in 20 4 [Dim { stride: -8, bound: 3 }]
[3:-2] -> 12 Int Little in 20 4 [Dim { stride: -8, bound: 2 }]
[4:1] -> 16 Int Little in 20 4 [Dim { stride: 0, bound: 1 }]
[0:-1] -> 0 Int Little in 20 4 [Dim { stride: 0, bound: 1 }]";

#[test]
fn strides_and_bounds(rt: HostRuntime) {
    answers(&rt, rt.alloc(), in_ints, INTS);
}

/// The offset at these indices, if there are as many as open steps.
fn offset_at(resolved: &Resolved, indices: &[u64]) -> Option<Result<u64, Refusal>> {
    if resolved.dims().len() != indices.len() {
        return None;
    }
    Some(resolved.offset_at(indices))
}

/// The offset in five bytes at an index of each second from the last on.
fn offset_from_the_last(alloc: Global, index: u64) -> Option<Result<u64, Refusal>> {
    match resolved_in(alloc, five(alloc, ValueKind::Byte), "[4:-2]") {
        Ok(resolved) => offset_at(&resolved, &[index]),
        Err(_) => None,
    }
}

#[test]
fn offsets_back_to_the_start(rt: HostRuntime) {
    let alloc = rt.alloc();
    same(&rt, offset_from_the_last(alloc, 0), Some(Ok(4)));
    same(&rt, offset_from_the_last(alloc, 1), Some(Ok(2)));
    same(&rt, offset_from_the_last(alloc, 2), Some(Ok(0)));
    same(
        &rt,
        offset_from_the_last(alloc, 3),
        Some(Err(Refusal::IndexOut(0))),
    );
}

/// Paths that lead to no value of a sale, and how their refusals are printed.
const NO_VALUES: &str = "\
.nope -> 31 0
.#6 -> 31 0
.id.x -> 30 1
.id.#0 -> 30 1
.kind[0] -> 32 1
.kind[] -> 32 1
.kind[0:0] -> 32 1
.tags[4] -> 33 1
.tags[4:1] -> 33 1
.tags[4:0] -> 36 1
.tags -> 35
.#2 -> 35
. -> 35";

#[test]
fn refuses_at_the_first_step(rt: HostRuntime) {
    answers(&rt, rt.alloc(), in_a_sale, NO_VALUES);
}

/// The path's offset in the layout, and what stands there.
fn end_of(alloc: Global, layout: &Layout, text: &str) -> Result<String, Refusal> {
    let path = parse_path(alloc, text)?;
    let offset = byte_offset(layout, &path)?;
    let end = layout_told(alloc, select(layout, &path)?);
    Ok(whole(alloc, format!(in alloc; "at {offset} {end}")))
}

/// That in what was made, or how the refusal is printed.
fn end_told(alloc: Global, made: Result<Layout, Refusal>, text: &str) -> String {
    let end = match made {
        Ok(layout) => end_of(alloc, &layout, text),
        Err(refusal) => Err(refusal),
    };
    match end {
        Ok(end) => end,
        Err(refusal) => refusal_told(alloc, refusal),
    }
}

/// Where the path ends in a sale.
fn end_in_a_sale(alloc: Global, text: &str) -> String {
    end_told(alloc, sale(alloc), text)
}

/// Paths into a sale, their offsets, and what stands there: its form, size, alignment and name.
const ENDS: &str = "\
. -> at 0 Struct(6) 24 8 .
.tags -> at 16 Sequence(4) 4 1 .tags
.tags[3] -> at 19 Value(Byte, Little) 1 1 .
.price -> at 8 Value(Long, Little) 8 8 .price
.#5 -> at 20 Padding 4 1 .
.tags[] -> 34 1
.id[0:0] -> 34 1
.nope[] -> 31 0
.tags[4] -> 33 1";

#[test]
fn ends_at_any_layout(rt: HostRuntime) {
    answers(&rt, rt.alloc(), end_in_a_sale, ENDS);
}

/// A struct of two ints of the same name.
fn twins(alloc: Global) -> Result<Layout, Refusal> {
    let first = named(alloc, ValueKind::Int, "a");
    structure(two(alloc, first, named(alloc, ValueKind::Int, "a")))
}

/// Where the path ends in twins.
fn end_in_twins(alloc: Global, text: &str) -> String {
    end_told(alloc, twins(alloc), text)
}

/// Paths into twins, their offsets, and what stands there.
const ENDS_IN_TWINS: &str = "\
.a -> at 0 Value(Int, Little) 4 4 .a
.#1 -> at 4 Value(Int, Little) 4 4 .a
.#2 -> 31 0";

/// The list of the values of what was made, or how the refusal is printed.
fn list_told(alloc: Global, made: Result<Layout, Refusal>) -> String {
    let list = match made {
        Ok(layout) => list_places(alloc, &layout),
        Err(refusal) => Err(refusal),
    };
    match list {
        Ok(list) => list,
        Err(refusal) => refusal_told(alloc, refusal),
    }
}

/// The list of the values of twins.
const TWINS: &str = "size 8\nalignment 4\n.a 0 int little\n.#1 4 int little\n";

#[test]
fn the_first_of_a_name_is_meant(rt: HostRuntime) {
    let alloc = rt.alloc();
    answers(&rt, alloc, end_in_twins, ENDS_IN_TWINS);
    same(&rt, list_told(alloc, twins(alloc)).as_str(), TWINS);
}

/// So many sales.
fn sales(alloc: Global, count: u64) -> Result<Layout, Refusal> {
    Layout::sequence(alloc, count, sale(alloc)?)
}

/// None of two sales.
fn none_of_two(alloc: Global) -> Result<Layout, Refusal> {
    Layout::sequence(alloc, 0, sales(alloc, 2)?)
}

/// The path to a price in each, from the second sale back to the first.
const PRICES: &str = "[][1:-1].price";

/// Where it leads to.
const PRICES_TOLD: &str =
    "32 Long Little in 0 8 [Dim { stride: 48, bound: 0 }, Dim { stride: -24, bound: 2 }]";

/// The offset of the first of none.
fn first_of_none(alloc: Global) -> Option<Result<u64, Refusal>> {
    match resolved_in(alloc, none_of_two(alloc), PRICES) {
        Ok(resolved) => offset_at(&resolved, &[0, 0]),
        Err(_) => None,
    }
}

#[test]
fn no_index_of_an_empty_sequence(rt: HostRuntime) {
    let alloc = rt.alloc();
    same(
        &rt,
        path_told(alloc, none_of_two(alloc), PRICES).as_str(),
        PRICES_TOLD,
    );
    same(&rt, first_of_none(alloc), Some(Err(Refusal::IndexOut(0))));
}

/// The list of the values of three sales.
const SALES: &str =
    "size 72\nalignment 8\n[].id 0 int little 24*3\n[].kind 4 short little 24*3\n[].price 8 long little 24*3\n[].tags[] 16 byte little 24*3 1*4\n";

#[test]
fn lists_the_values(rt: HostRuntime) {
    let alloc = rt.alloc();
    same(&rt, list_told(alloc, sales(alloc, 3)).as_str(), SALES);
    let value = Layout::value(ValueKind::Char).with_order(Order::Big);
    same(
        &rt,
        list_told(alloc, Ok(value)).as_str(),
        "size 2\nalignment 2\n. 0 char big\n",
    );
}
