use crate::tests::compared::same;
use crate::tests::record::sale;
use crate::tests::rows::answers;
use crate::tests::told::{told, whole};
use fm_base::Refusal;
use fm_layout::Layout;
use fm_ljson::layout_from_json;
use std::alloc::{AllocError, Global};
use std::process::Abort;

/// The layout of a text that has `'` for each quotation mark.
pub(crate) fn read(alloc: Global, text: &str) -> Result<Layout, Refusal> {
    let json = text.replace(alloc, "'", "\"")?;
    layout_from_json(alloc, json.as_bytes())
}

/// What the layout of a text is, or how its refusal is printed.
pub(crate) fn read_told(alloc: Global, text: &str) -> String {
    told(alloc, read(alloc, text))
}

/// The layout of `fm_layout`'s documentation, with its keys in two orders.
const SALES: [&str; 2] = [
    "{'type':'struct','members':[{'type':'int','name':'id'},{'type':'short','name':'kind'},{'type':'padding','size':2},{'type':'long','name':'price'},{'type':'sequence','name':'tags','count':4,'element':{'type':'byte'}},{'type':'padding','size':4}]}",
    "{'members':[{'name':'id','type':'int'},{'name':'kind','type':'short'},{'size':2,'type':'padding'},{'name':'price','type':'long'},{'count':4,'element':{'type':'byte'},'name':'tags','type':'sequence'},{'size':4,'type':'padding'}],'type':'struct'}",
];

/// Whether the text is read as that layout.
fn is_sale(alloc: Global, text: &str) -> bool {
    match (read(alloc, text), sale(alloc)) {
        (Ok(layout), Ok(sale)) => layout == sale,
        _ => false,
    }
}

#[test]
fn reads_a_record(rt: HostRuntime) {
    for text in SALES {
        same(&rt, (is_sale(rt.alloc(), text), text), (true, text));
    }
}

/// Texts of layouts, and what each is: its form, its size and alignment, and its name behind a dot.
const READ: &str = "\
{'type':'byte'} -> Value(Byte, Little) 1 1 .
{'type':'boolean'} -> Value(Boolean, Little) 1 1 .
{'type':'char','order':'big'} -> Value(Char, Big) 2 2 .
{'type':'short','order':'little'} -> Value(Short, Little) 2 2 .
{'type':'int','align':1} -> Value(Int, Little) 4 1 .
{'type':'long','align':1099511627776} -> Value(Long, Little) 8 1099511627776 .
 { 'type' : 'int' , 'name' : '_a9' }  -> Value(Int, Little) 4 4 ._a9
{'type':'padding','size':3,'name':'p'} -> Padding 3 1 .p
{'type':'padding','size':1099511627776} -> Padding 1099511627776 1 .
{'type':'sequence','count':0,'element':{'type':'int'}} -> Sequence(0) 0 4 .
{'type':'sequence','count':2,'element':{'type':'int'},'align':16,'name':'s'} -> Sequence(2) 8 16 .s
{'type':'struct','members':[]} -> Struct(0) 0 1 .
{'type':'union','members':[{'type':'byte'},{'type':'long'}],'align':32,'name':'u'} -> Union(2) 8 32 .u
{'type':'struct','members':[{'type':'int'},{'type':'padding','size':4},{'type':'long'}]} -> Struct(3) 16 8 .
{'type':'byte','type':'int'} -> Value(Int, Little) 4 4 .
{'type':'int','align':3,'align':2} -> Value(Int, Little) 4 2 .
{'\\u0074ype':'int'} -> Value(Int, Little) 4 4 .";

#[test]
fn reads_each_type_and_key(rt: HostRuntime) {
    answers(&rt, rt.alloc(), read_told, READ);
}

/// Texts that are no JSON.
const NO_JSON: &str = "\
{ -> 40
 -> 40
{'type':'int'}} -> 40
{'type':'int'} 1 -> 40
{'type':'int',} -> 40
{'type':'int','align':08} -> 40
{'type':'int','align':+8} -> 40
{'type':'int','align':1e999} -> 40
{'type':'int','name':'\\ud800'} -> 40";

/// Whether the bytes are refused as no JSON.
fn is_no_json(alloc: Global, bytes: &[u8]) -> bool {
    layout_from_json(alloc, bytes).err() == Some(Refusal::BadJson)
}

#[test]
fn refuses_what_is_no_json(rt: HostRuntime) {
    let alloc = rt.alloc();
    answers(&rt, alloc, read_told, NO_JSON);
    same(&rt, (is_no_json(alloc, b"\"\xff\""), 0), (true, 0));
    same(
        &rt,
        (is_no_json(alloc, b"{\"type\":\"int\"\xc3}"), 1),
        (true, 1),
    );
    same(&rt, (is_no_json(alloc, b"\xef\xbb\xbf{}"), 2), (true, 2));
}

/// Texts of which a node breaks a rule, and that node's number behind the refusal's.
const BAD_NODES: &str = "\
null -> 41 0
[] -> 41 0
'int' -> 41 0
{} -> 41 0
{'type':'float'} -> 41 0
{'type':'Int'} -> 41 0
{'type':7} -> 41 0
{'type':'int','size':4} -> 41 0
{'type':'int','Name':'a'} -> 41 0
{'type':'int','':1} -> 41 0
{'type':'int','name':''} -> 41 0
{'type':'int','name':'9a'} -> 41 0
{'type':'int','name':'a-b'} -> 41 0
{'type':'int','name':null} -> 41 0
{'type':'int','order':'Big'} -> 41 0
{'type':'int','order':true} -> 41 0
{'type':'int','align':8.0} -> 41 0
{'type':'int','align':8e0} -> 41 0
{'type':'int','align':-0} -> 41 0
{'type':'int','align':-8} -> 41 0
{'type':'int','align':'8'} -> 41 0
{'type':'int','align':1099511627777} -> 41 0
{'type':'int','align':18446744073709551616} -> 41 0
{'type':'padding'} -> 41 0
{'type':'padding','size':1099511627777} -> 41 0
{'type':'padding','size':2,'align':1} -> 41 0
{'type':'padding','size':2,'order':'big'} -> 41 0
{'type':'sequence','count':2} -> 41 0
{'type':'sequence','element':{'type':'int'}} -> 41 0
{'type':'sequence','count':1099511627777,'element':{'type':'int'}} -> 41 0
{'type':'sequence','count':2,'element':{'type':'int'},'members':[]} -> 41 0
{'type':'struct'} -> 41 0
{'type':'struct','members':{}} -> 41 0
{'type':'struct','members':[],'order':'big'} -> 41 0
{'type':'union','members':[],'size':1} -> 41 0
{'type':'sequence','count':2,'element':7} -> 41 1
{'type':'struct','members':[1]} -> 41 1
{'type':'struct','members':[{'type':'int'},{'type':'float'},{}]} -> 41 2
{'type':'struct','members':[{'type':'union','members':[{'type':'int'},{'type':'int'}]},{}]} -> 41 4
{'type':'struct','members':[{'type':'sequence','count':1,'element':{'type':'struct','members':[]}},{'type':'int'},null]} -> 41 4
{'type':'union','members':[{'type':'struct','members':[{'type':'int'},{'type':'int','align':-1}]},{}]} -> 41 3
{'type':'struct','members':[{'type':'padding','size':0},{}]} -> 41 2";

#[test]
fn names_the_node_that_breaks_a_rule(rt: HostRuntime) {
    answers(&rt, rt.alloc(), read_told, BAD_NODES);
}

/// Texts of layouts that the constructors refuse, and how their refusals are printed.
const REFUSED: &str = "\
{'type':'int','align':0} -> 9
{'type':'int','align':24} -> 9
{'type':'struct','members':[{'type':'int'},{'type':'long'}]} -> 21 1 4
{'type':'sequence','count':1099511627776,'element':{'type':'long'}} -> 20
{'type':'struct','members':[{'type':'padding','size':1099511627776},{'type':'byte'}]} -> 20
{'type':'sequence','count':2,'element':{'type':'struct','members':[{'type':'long'},{'type':'int'}]}} -> 22
{'type':'padding','size':0} -> 23
{'type':'struct','members':[{'type':'long'}],'align':4} -> 24 8
{'type':'sequence','count':0,'element':{'type':'short'},'align':1} -> 24 2
{'type':'union','members':[{'type':'padding','size':0},{'type':'int','align':3}],'align':5} -> 23
{'type':'union','members':[{'type':'int','align':3},{'type':'padding','size':0}],'align':5} -> 9
{'type':'struct','members':[{'type':'byte'},{'type':'int'}],'align':3} -> 21 1 1
{'type':'struct','members':[{'type':'byte'},{'type':'int'},{'type':'padding','size':0}]} -> 23";

#[test]
fn refuses_as_the_constructors_do(rt: HostRuntime) {
    answers(&rt, rt.alloc(), read_told, REFUSED);
}

/// An int in so many sequences of one.
pub(crate) fn nested(alloc: Global, levels: usize) -> Result<String, AllocError> {
    let before = "{'type':'sequence','count':1,'element':".repeat(alloc, levels)?;
    let behind = "}".repeat(alloc, levels)?;
    format!(in alloc; "{before}{{'type':'int'}}{behind}")
}

/// Stops where an int in so many sequences of one isn't read so.
fn is_nested<R: Abort>(rt: &R, alloc: Global, levels: usize, wanted: &str) {
    let text = whole(alloc, nested(alloc, levels));
    same(
        rt,
        (read_told(alloc, &text).as_str(), levels),
        (wanted, levels),
    );
}

#[test]
fn reads_forty_levels(rt: HostRuntime) {
    let alloc = rt.alloc();
    is_nested(&rt, alloc, 39, "Sequence(1) 4 4 .");
    is_nested(&rt, alloc, 40, "41 40");
    is_nested(&rt, alloc, 41, "41 40");
    is_nested(&rt, alloc, 126, "41 40");
    is_nested(&rt, alloc, 127, "40");
}

/// A struct of so many bytes, and one.
pub(crate) fn wide(alloc: Global, more: usize) -> Result<String, AllocError> {
    let members = ",{'type':'byte'}".repeat(alloc, more)?;
    format!(in alloc; "{{'type':'struct','members':[{{'type':'byte'}}{members}]}}")
}

/// Stops where a struct of so many bytes, and one, isn't read so.
fn is_wide<R: Abort>(rt: &R, alloc: Global, more: usize, wanted: &str) {
    let text = whole(alloc, wide(alloc, more));
    same(rt, (read_told(alloc, &text).as_str(), more), (wanted, more));
}

#[test]
fn reads_65536_nodes(rt: HostRuntime) {
    is_wide(&rt, rt.alloc(), 65_534, "Struct(65535) 65535 1 .");
    is_wide(&rt, rt.alloc(), 65_535, "41 65536");
}
