use crate::tests::compared::same;
use crate::tests::layouts_read::{nested, read, read_told, wide};
use crate::tests::layouts_written::{comes_back, is_back, is_so};
use crate::tests::record::sale;
use crate::tests::rows::{answers, cut};
use crate::tests::told::whole;
use fm_layout::Layout;
use fm_ljson_write::layout_to_json2;
use std::alloc::{AllocError, Global};
use std::process::Abort;

/// Two points.
const LINE: &str =
    "{'version':2,'types':[{'define':'p','layout':{'type':'struct','members':[{'type':'int','name':'x'},{'type':'int','name':'y'}]}}],'layout':{'type':'struct','members':[{'type':'ref','of':'p','name':'from'},{'type':'ref','of':'p','name':'to'}]}}";

/// The same, with each point written out.
const LINE_WRITTEN: &str =
    "{'members':[{'members':[{'name':'x','type':'int'},{'name':'y','type':'int'}],'name':'from','type':'struct'},{'members':[{'name':'x','type':'int'},{'name':'y','type':'int'}],'name':'to','type':'struct'}],'type':'struct'}";

/// What types are named, the layout, and the layout as it is written out.
const READ: &str = "\
{'define':'a','layout':{'type':'int'}} -> {'type':'long'} -> {'type':'long'}
 -> {'type':'int'} -> {'type':'int'}
{'define':'a','layout':{'type':'int'}} -> {'type':'ref','of':'a'} -> {'type':'int'}
{'define':'a','layout':{'type':'int','name':'x'}} -> {'type':'ref','of':'a'} -> {'name':'x','type':'int'}
{'define':'a','layout':{'type':'int','name':'x'}} -> {'type':'ref','of':'a','name':'y'} -> {'name':'y','type':'int'}
{'layout':{'type':'int'},'define':'a'} -> {'of':'a','name':'a','type':'ref'} -> {'name':'a','type':'int'}
{'define':'a','layout':{'type':'short','order':'big','align':8}} -> {'type':'ref','of':'a'} -> {'align':8,'order':'big','type':'short'}
{'define':'a','layout':{'type':'padding','size':3,'name':'x'}} -> {'type':'ref','of':'a','name':'y'} -> {'name':'y','size':3,'type':'padding'}
{'define':'a','layout':{'type':'int'}},{'define':'b','layout':{'type':'long'}} -> {'type':'ref','of':'a'} -> {'type':'int'}
{'define':'a','layout':{'type':'int'}},{'define':'b','layout':{'type':'long'}} -> {'type':'ref','of':'b'} -> {'type':'long'}
{'define':'b','layout':{'type':'int'}},{'define':'a','layout':{'type':'long'}} -> {'type':'ref','of':'b'} -> {'type':'int'}
{'define':'a','layout':{'type':'int'}},{'define':'A','layout':{'type':'long'}} -> {'type':'ref','of':'a'} -> {'type':'int'}
{'define':'a','layout':{'type':'int'}},{'define':'b','layout':{'type':'ref','of':'a','name':'x'}} -> {'type':'ref','of':'b'} -> {'name':'x','type':'int'}
{'define':'a','layout':{'type':'int'}},{'define':'b','layout':{'type':'ref','of':'a','name':'x'}} -> {'type':'ref','of':'b','name':'y'} -> {'name':'y','type':'int'}
{'define':'a','layout':{'type':'int'}} -> {'type':'sequence','count':2,'element':{'type':'ref','of':'a'}} -> {'count':2,'element':{'type':'int'},'type':'sequence'}
{'define':'a','layout':{'type':'int'}} -> {'type':'union','members':[{'type':'ref','of':'a'},{'type':'byte'}]} -> {'members':[{'type':'int'},{'type':'byte'}],'type':'union'}
{'define':'a','layout':{'type':'byte'}},{'define':'b','layout':{'type':'struct','members':[{'type':'ref','of':'a'},{'type':'ref','of':'a','name':'x'}]}} -> {'type':'ref','of':'b'} -> {'members':[{'type':'byte'},{'name':'x','type':'byte'}],'type':'struct'}
{'define':'a','define':'b','layout':{'type':'int'}} -> {'type':'ref','of':'b'} -> {'type':'int'}";

/// A text that names these types.
fn document(alloc: Global, types: &str, layout: &str) -> Result<String, AllocError> {
    format!(in alloc; "{{'version':2,'types':[{types}],'layout':{layout}}}")
}

/// The text of types and a layout with an arrow between them.
fn document_of(alloc: Global, row: &str) -> String {
    let (types, layout) = cut(row);
    whole(alloc, document(alloc, types, layout))
}

/// Whether the text stands for a layout that is written so.
fn is_read(alloc: Global, text: &str, written: &str) -> bool {
    match read(alloc, text) {
        Ok(layout) => is_so(alloc, &layout, written),
        Err(_) => false,
    }
}

#[test]
fn a_ref_stands_for_the_type_that_it_names(rt: HostRuntime) {
    let alloc = rt.alloc();
    same(&rt, is_read(alloc, LINE, LINE_WRITTEN), true);
    for row in READ.lines() {
        let (document, written) = cut(row);
        let text = document_of(alloc, document);
        same(&rt, (is_read(alloc, &text, written), row), (true, row));
    }
}

/// Roots, and what they are read as.
const ROOTS: &str = "\
{'layout':{'type':'int'},'types':[],'version':2} -> Value(Int, Little) 4 4 .
{'version':3,'version':2,'types':[],'layout':{'type':'int'}} -> Value(Int, Little) 4 4 .
{'version':2,'types':7,'types':[],'layout':{'type':'int'}} -> Value(Int, Little) 4 4 .
{'version':2,'version':3,'types':[],'layout':{'type':'int'}} -> 41 0
{'version':3,'types':[],'layout':{'type':'int'}} -> 41 0
{'version':1,'types':[],'layout':{'type':'int'}} -> 41 0
{'version':2.0,'types':[],'layout':{'type':'int'}} -> 41 0
{'version':-2,'types':[],'layout':{'type':'int'}} -> 41 0
{'version':'2','types':[],'layout':{'type':'int'}} -> 41 0
{'version':null,'types':[],'layout':{'type':'int'}} -> 41 0
{'version':18446744073709551618,'types':[],'layout':{'type':'int'}} -> 41 0
{'version':2,'layout':{'type':'int'}} -> 41 0
{'version':2,'types':[]} -> 41 0
{'version':2} -> 41 0
{'version':2,'types':{},'layout':{'type':'int'}} -> 41 0
{'version':2,'types':null,'layout':{'type':'int'}} -> 41 0
{'version':2,'types':[],'layout':{'type':'int'},'name':'a'} -> 41 0
{'version':2,'types':[],'layout':{'type':'int'},'Types':[]} -> 41 0
{'version':2,'type':'int'} -> 41 0
{'type':'int','version':2} -> 41 0";

#[test]
fn a_root_has_just_its_three_keys(rt: HostRuntime) {
    answers(&rt, rt.alloc(), read_told, ROOTS);
}

/// What the layout behind the types is, or how its refusal is printed.
fn document_told(alloc: Global, row: &str) -> String {
    let text = document_of(alloc, row);
    read_told(alloc, &text)
}

/// Types and layouts of which a node breaks a rule, and that node's number behind the refusal's.
const BAD_NODES: &str = "\
7 -> {'type':'int'} -> 41 1
{} -> {'type':'int'} -> 41 1
{'define':'a'} -> {'type':'int'} -> 41 1
{'layout':{'type':'int'}} -> {'type':'int'} -> 41 1
{'define':'a','layout':{'type':'int'},'name':'a'} -> {'type':'int'} -> 41 1
{'define':7,'layout':{'type':'int'}} -> {'type':'int'} -> 41 1
{'define':'','layout':{'type':'int'}} -> {'type':'int'} -> 41 1
{'define':'9a','layout':{'type':'int'}} -> {'type':'int'} -> 41 1
{'define':'a b','layout':{'type':'int'}} -> {'type':'int'} -> 41 1
{'define':'aaaaaaaaaaaaaaaaaaaaaaaaaaaaaaaaaaaaaaaaaaaaaaaaaaaaaaaaaaaaaaaaa','layout':{'type':'int'}} -> {'type':'int'} -> 41 1
{'define':'a','layout':7} -> {'type':'int'} -> 41 2
{'define':'a','layout':{}} -> {'type':'int'} -> 41 2
{'define':'a','layout':{'type':'ref','of':'a'}} -> {'type':'int'} -> 41 2
{'define':'a','layout':{'type':'ref','of':'b'}},{'define':'b','layout':{'type':'int'}} -> {'type':'int'} -> 41 2
{'define':'a','layout':{'type':'int'}},{'define':'a','layout':{'type':'long'}} -> {'type':'ref','of':'a'} -> 41 3
{'define':'a','layout':{'type':'int'}},{'define':'a','layout':7} -> {'type':'int'} -> 41 3
{'define':'a','layout':{'type':'int'}},7 -> {'type':'float'} -> 41 3
 -> 7 -> 41 1
 -> {'type':'ref','of':'a'} -> 41 1
 -> {'version':2,'types':[],'layout':{'type':'int'}} -> 41 1
{'define':'a','layout':{'type':'int'}} -> {'type':'ref','of':'b'} -> 41 3
{'define':'a','layout':{'type':'int'}} -> {'type':'ref','of':'A'} -> 41 3
{'define':'a','layout':{'type':'int'}} -> {'type':'ref','of':'9a'} -> 41 3
{'define':'a','layout':{'type':'int'}} -> {'type':'ref','of':7} -> 41 3
{'define':'a','layout':{'type':'int'}} -> {'type':'ref'} -> 41 3
{'define':'a','layout':{'type':'int'}} -> {'type':'ref','of':'a','name':'9a'} -> 41 3
{'define':'a','layout':{'type':'int'}} -> {'type':'ref','of':'a','name':null} -> 41 3
{'define':'a','layout':{'type':'int'}} -> {'type':'ref','of':'a','align':4} -> 41 3
{'define':'a','layout':{'type':'int'}} -> {'type':'ref','of':'a','order':'big'} -> 41 3
{'define':'a','layout':{'type':'int'}} -> {'type':'Ref','of':'a'} -> 41 3
{'define':'a','layout':{'type':'int'}} -> {'type':'int','of':'a'} -> 41 3
{'define':'a','layout':{'type':'int'}} -> {'type':'sequence','count':1,'element':{'type':'ref','of':'b'}} -> 41 4
{'define':'a','layout':{'type':'struct','members':[{'type':'int'},{'type':'int'}]}} -> {'type':'float'} -> 41 5
{'define':'a','layout':{'type':'struct','members':[{'type':'int'},{'type':'int'}]}} -> {'type':'struct','members':[{'type':'ref','of':'a'},{'type':'float'}]} -> 41 7
{'define':'a','layout':{'type':'struct','members':[{'type':'int'},{'type':'int'}]}},{'define':'b','layout':{'type':'int'},'x':1} -> {'type':'int'} -> 41 5";

/// What the two points are, where the second is of another type.
fn other_told(alloc: Global) -> String {
    let text = whole(
        alloc,
        LINE.replace(alloc, "'p','name':'to'", "'q','name':'to'"),
    );
    read_told(alloc, &text)
}

#[test]
fn nodes_are_numbered_as_they_are_written(rt: HostRuntime) {
    let alloc = rt.alloc();
    answers(&rt, alloc, document_told, BAD_NODES);
    same(&rt, other_told(alloc).as_str(), "41 7");
    same(
        &rt,
        read_told(alloc, "{'type':'ref','of':'a'}").as_str(),
        "41 0",
    );
}

/// Types and layouts that the constructors refuse, and how their refusals are printed.
const REFUSED: &str = "\
{'define':'a','layout':{'type':'padding','size':0}} -> {'type':'int'} -> 23
{'define':'a','layout':{'type':'int','align':3}} -> {'type':'padding','size':0} -> 9
{'define':'a','layout':{'type':'int'}},{'define':'b','layout':{'type':'padding','size':0}} -> {'type':'int','align':3} -> 23
{'define':'a','layout':{'type':'long'}} -> {'type':'struct','members':[{'type':'int'},{'type':'ref','of':'a'}]} -> 21 1 4
{'define':'a','layout':{'type':'struct','members':[{'type':'long'},{'type':'int'}]}} -> {'type':'sequence','count':2,'element':{'type':'ref','of':'a'}} -> 22
{'define':'a','layout':{'type':'padding','size':1099511627776}} -> {'type':'struct','members':[{'type':'ref','of':'a'},{'type':'byte'}]} -> 20
{'define':'a','layout':{'type':'long'}} -> {'type':'union','members':[{'type':'ref','of':'a'}],'align':4} -> 24 8";

#[test]
fn types_are_refused_as_the_constructors_do(rt: HostRuntime) {
    answers(&rt, rt.alloc(), document_told, REFUSED);
}

/// The type t, which is this.
fn as_t(alloc: Global, layout: &str) -> Result<String, AllocError> {
    format!(in alloc; "{{'define':'t','layout':{layout}}}")
}

/// The type t in so many sequences of one.
fn nested_t(alloc: Global, levels: usize) -> Result<String, AllocError> {
    let text = nested(alloc, levels)?;
    text.replace(alloc, "{'type':'int'}", "{'type':'ref','of':'t'}")
}

/// The type t in so many sequences of one, where t is an int in so many.
fn nested_type(alloc: Global, inner: usize, outer: usize) -> Result<String, AllocError> {
    let t = as_t(alloc, &nested(alloc, inner)?)?;
    document(alloc, &t, &nested_t(alloc, outer)?)
}

/// Stops where a text that was made of these two counts isn't read so.
fn reads_as<R: Abort>(
    rt: &R,
    alloc: Global,
    text: Result<String, AllocError>,
    counts: (usize, usize),
    wanted: &str,
) {
    let found = read_told(alloc, &whole(alloc, text));
    same(rt, (found.as_str(), counts), (wanted, counts));
}

/// Stops where t isn't read so, in so many sequences of one.
fn is_nested<R: Abort>(rt: &R, alloc: Global, inner: usize, outer: usize, wanted: &str) {
    let text = nested_type(alloc, inner, outer);
    reads_as(rt, alloc, text, (inner, outer), wanted);
}

#[test]
fn levels_are_counted_through_refs(rt: HostRuntime) {
    let alloc = rt.alloc();
    for (inner, outer) in [(39, 0), (0, 39), (20, 19), (1, 38)] {
        is_nested(&rt, alloc, inner, outer, "Sequence(1) 4 4 .");
    }
    // The root of t is node 2, and that of `layout` stands behind t's int, which is node 2 + inner.
    is_nested(&rt, alloc, 40, 0, "41 2");
    is_nested(&rt, alloc, 40, 1, "41 2");
    is_nested(&rt, alloc, 0, 40, "41 3");
    is_nested(&rt, alloc, 20, 20, "41 23");
    is_nested(&rt, alloc, 39, 1, "41 42");
    is_nested(&rt, alloc, 1, 39, "41 4");
}

/// A struct of the type t, so many more of it, and of so many bytes.
fn refs_and_bytes(alloc: Global, refs: usize, bytes: usize) -> Result<String, AllocError> {
    let refs = ",{'type':'ref','of':'t'}".repeat(alloc, refs)?;
    let bytes = ",{'type':'byte'}".repeat(alloc, bytes)?;
    format!(in alloc; "{{'type':'struct','members':[{{'type':'ref','of':'t'}}{refs}{bytes}]}}")
}

/// The same, where t is a struct of 255 bytes.
fn wide_type(alloc: Global, refs: usize, bytes: usize) -> Result<String, AllocError> {
    let t = as_t(alloc, &wide(alloc, 254)?)?;
    document(alloc, &t, &refs_and_bytes(alloc, refs, bytes)?)
}

/// Stops where a struct of t, so many more of it, and of so many bytes isn't read so.
fn is_wide<R: Abort>(rt: &R, alloc: Global, refs: usize, bytes: usize, wanted: &str) {
    let text = wide_type(alloc, refs, bytes);
    reads_as(rt, alloc, text, (refs, bytes), wanted);
}

#[test]
fn nodes_are_counted_through_refs(rt: HostRuntime) {
    let alloc = rt.alloc();
    is_wide(&rt, alloc, 254, 255, "Struct(510) 65280 1 .");
    // The root is node 0, the entry node 1, and t has 256 nodes.
    is_wide(&rt, alloc, 254, 256, "41 258");
    is_wide(&rt, alloc, 255, 0, "41 258");
}

/// Puts the type of this number, which has the one before it twice.
fn put_doubled(types: &mut String, alloc: Global, before: u64, k: u64) -> Result<(), AllocError> {
    let more = format!(in alloc;
        ",{{'define':'t{k}','layout':{{'type':'struct','members':[{{'type':'ref','of':'t{before}'}},{{'type':'ref','of':'t{before}'}}]}}}}"
    )?;
    types.push_str(&more)
}

/// Types of which each has the one before it twice, and the first is a byte. Others stand before them.
fn doubled(alloc: Global, others: &str, count: u64) -> Result<String, AllocError> {
    let mut types = others.to_string(alloc)?;
    types.push_str("{'define':'t0','layout':{'type':'byte'}}")?;
    for k in 1..count {
        put_doubled(&mut types, alloc, k - 1, k)?;
    }
    Ok(types)
}

/// What the layout behind so many such types is, or how its refusal is printed.
fn doubled_told(alloc: Global, others: &str, count: u64, layout: &str) -> String {
    let types = whole(alloc, doubled(alloc, others, count));
    let text = whole(alloc, document(alloc, &types, layout));
    read_told(alloc, &text)
}

/// A type that is refused.
const NO_PADDING: &str = "{'define':'z','layout':{'type':'padding','size':0}},";

#[test]
fn what_is_too_large_is_never_built(rt: HostRuntime) {
    let alloc = rt.alloc();
    let all = doubled_told(alloc, "", 16, "{'type':'ref','of':'t15'}");
    same(&rt, all.as_str(), "Struct(2) 32768 1 .");
    // Type k has 2^(k + 1) - 1 nodes, and its root is node 4 k.
    let large = doubled_told(alloc, "", 40, "{'type':'int'}");
    same(&rt, large.as_str(), "41 64");
    // A rule that is broken behind it comes first, and a layout that is refused before it doesn't.
    let broken = doubled_told(alloc, "", 40, "{'type':'float'}");
    same(&rt, broken.as_str(), "41 159");
    let refused = doubled_told(alloc, NO_PADDING, 40, "{'type':'int'}");
    same(&rt, refused.as_str(), "41 66");
}

/// Whether this is written of the layout as version 2, and the layout is read from it again.
fn is_written(alloc: Global, layout: &Layout, text: &str) -> bool {
    match layout_to_json2(alloc, layout) {
        Ok(bytes) => bytes.as_slice() == text.as_bytes() && is_back(alloc, layout, &bytes),
        Err(_) => false,
    }
}

const SALE: &str =
    "{\"layout\":{\"members\":[{\"name\":\"id\",\"type\":\"int\"},{\"name\":\"kind\",\"type\":\"short\"},{\"size\":2,\"type\":\"padding\"},{\"name\":\"price\",\"type\":\"long\"},{\"count\":4,\"element\":{\"type\":\"byte\"},\"name\":\"tags\",\"type\":\"sequence\"},{\"size\":4,\"type\":\"padding\"}],\"type\":\"struct\"},\"types\":[],\"version\":2}";

#[test]
fn a_record_is_written_as_version_2_and_read_again(rt: HostRuntime) {
    let alloc = rt.alloc();
    let sale = sale(alloc).expect(&rt, "a layout");
    same(&rt, is_written(alloc, &sale, SALE), true);
    same(&rt, comes_back(alloc, &sale), true);
}
