use crate::tests::compared::same;
use crate::tests::record::{one, sale};
use crate::tests::told::{told, whole};
use fm_base::Refusal;
use fm_lanes::{Order, ValueKind};
use fm_layout::Layout;
use fm_ljson::layout_from_json;
use fm_ljson_write::layout_to_json;
use std::alloc::Global;
use std::process::Abort;

/// A record of an id, a kind, a price and four tags.
const SALE: &str =
    "{'members':[{'name':'id','type':'int'},{'name':'kind','type':'short'},{'size':2,'type':'padding'},{'name':'price','type':'long'},{'count':4,'element':{'type':'byte'},'name':'tags','type':'sequence'},{'size':4,'type':'padding'}],'type':'struct'}";

/// Three of a union under a name.
const ROW: &str =
    "{'align':16,'count':3,'element':{'members':[{'type':'int'}],'name':'u','type':'union'},'type':'sequence'}";

/// Whether the layout is read from these bytes.
pub(crate) fn is_back(alloc: Global, layout: &Layout, bytes: &[u8]) -> bool {
    match layout_from_json(alloc, bytes) {
        Ok(again) => again == *layout,
        Err(_) => false,
    }
}

/// Whether the layout is read from what is written of it.
pub(crate) fn comes_back(alloc: Global, layout: &Layout) -> bool {
    match layout_to_json(alloc, layout) {
        Ok(bytes) => is_back(alloc, layout, &bytes),
        Err(_) => false,
    }
}

/// Whether this text, which has `'` for each quotation mark, is written of the layout, and the layout is read from it
/// again.
pub(crate) fn is_so(alloc: Global, layout: &Layout, text: &str) -> bool {
    let json = whole(alloc, text.replace(alloc, "'", "\""));
    match layout_to_json(alloc, layout) {
        Ok(bytes) => bytes.as_slice() == json.as_bytes() && is_back(alloc, layout, &bytes),
        Err(_) => false,
    }
}

/// Stops where the layout isn't written so, or isn't read again.
fn is_written<R: Abort>(rt: &R, alloc: Global, made: Result<Layout, Refusal>, text: &str) {
    match made {
        Ok(layout) => same(rt, is_so(alloc, &layout, text), true),
        Err(refusal) => same(rt, Some(refusal), None),
    }
}

/// A layout of no bytes.
fn empty(alloc: Global) -> Result<Layout, Refusal> {
    Layout::structure(Vec::new(alloc))
}

#[test]
fn a_record_is_written_and_read_again(rt: HostRuntime) {
    let alloc = rt.alloc();
    is_written(&rt, alloc, sale(alloc), SALE);
    is_written(&rt, alloc, empty(alloc), "{'members':[],'type':'struct'}");
}

/// A boolean under a name, 8 bytes apart.
fn wide(alloc: Global) -> Result<Layout, Refusal> {
    let layout = Layout::value(ValueKind::Boolean).with_alignment(8)?;
    layout.with_name(alloc, "b")
}

#[test]
fn values_are_written_and_read_again(rt: HostRuntime) {
    let alloc = rt.alloc();
    let plain = Layout::value(ValueKind::Byte);
    is_written(&rt, alloc, Ok(plain), "{'type':'byte'}");
    let big = Layout::value(ValueKind::Char).with_order(Order::Big);
    is_written(&rt, alloc, Ok(big), "{'order':'big','type':'char'}");
    is_written(
        &rt,
        alloc,
        wide(alloc),
        "{'align':8,'name':'b','type':'boolean'}",
    );
    let narrow = Layout::value(ValueKind::Long).with_alignment(1);
    is_written(&rt, alloc, narrow, "{'align':1,'type':'long'}");
}

/// A union under a name.
fn named_union(alloc: Global) -> Result<Layout, Refusal> {
    let members = one(alloc, Layout::value(ValueKind::Int))?;
    Layout::union_of(members).with_name(alloc, "u")
}

/// Three of that.
fn row(alloc: Global) -> Result<Layout, Refusal> {
    Layout::sequence(alloc, 3, named_union(alloc)?)?.with_alignment(16)
}

#[test]
fn groups_are_written_and_read_again(rt: HostRuntime) {
    let alloc = rt.alloc();
    is_written(
        &rt,
        alloc,
        named_union(alloc),
        "{'members':[{'type':'int'}],'name':'u','type':'union'}",
    );
    is_written(&rt, alloc, row(alloc), ROW);
}

/// A byte in so many sequences of one.
fn nested(alloc: Global, sequences: u64) -> Result<Layout, Refusal> {
    let mut layout = Layout::value(ValueKind::Byte);
    for _ in 0..sequences {
        layout = Layout::sequence(alloc, 1, layout)?;
    }
    Ok(layout)
}

/// What is read from what is written of the layout.
fn again(alloc: Global, made: Result<Layout, Refusal>) -> Result<Layout, Refusal> {
    let bytes = layout_to_json(alloc, &made?)?;
    layout_from_json(alloc, &bytes)
}

/// Stops where what is read again isn't this.
fn is_again<R: Abort>(rt: &R, alloc: Global, made: Result<Layout, Refusal>, wanted: &str) {
    same(rt, told(alloc, again(alloc, made)).as_str(), wanted);
}

/// A sequence of one element more than 2^40, which have no bytes.
fn endless(alloc: Global) -> Result<Layout, Refusal> {
    Layout::sequence(alloc, (1 << 40) + 1, empty(alloc)?)
}

#[test]
fn only_what_is_within_the_limits_is_read_again(rt: HostRuntime) {
    let alloc = rt.alloc();
    let deepest = nested(alloc, 39).expect(&rt, "a layout");
    same(&rt, comes_back(alloc, &deepest), true);
    is_again(&rt, alloc, nested(alloc, 40), "41 40");
    is_again(&rt, alloc, endless(alloc), "41 0");
}
