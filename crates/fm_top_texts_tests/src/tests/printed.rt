ghost use Rattle.std.specs.Prelude.{IfOk};
ghost use Rattle.fm_top_texts.specs.Plans.{LiesWithin};

use crate::tests::rows::{parts_of, same};
use fm_base::Refusal;
use fm_io::{MemSink, SureFiles, SureSink};
use fm_ljson::layout_from_json;
use fm_top_load::{Loaded, load};
use fm_top_texts::{RecordTexts, TextPlan, plan_texts};
use std::alloc::{AllocGlobal, Global};
use std::process::Abort;
use std::sync::Wait;

/// The bytes of this hex, as a file of records of one byte, so that they may leave a rest by a layout.
fn loaded<R: AllocGlobal + Wait + Abort>(rt: &R, hex: &str) -> Loaded {
    let bytes = hex::decode(rt.alloc(), hex).expect(rt, "hex");
    let name = String::from_str(rt.alloc(), "f").expect(rt, "memory");
    let listed = vec![in rt.alloc(); (name, bytes)].expect(rt, "memory");
    load(rt, rt.alloc(), &mut SureFiles::new(listed), "f", 1).expect(rt, "a file")
}

/// Where the path leads in records of this layout, in which an apostrophe stands for each quotation mark.
fn planned(alloc: Global, layout: &str, path: &str) -> Result<TextPlan, Refusal>
    ensures { IfOk result LiesWithin }
{
    let json = layout.replace(alloc, '\'', "\"")?;
    plan_texts(alloc, &layout_from_json(alloc, json.as_bytes())?, path)
}

/// What is printed of the texts of a file, or how the path's refusal is.
fn printed<R: AllocGlobal + Wait + Abort>(rt: &R, layout: &str, path: &str, file: &str) -> String {
    let plan = match planned(rt.alloc(), layout, path) {
        Ok(plan) if plan.size > 0 => plan,
        Ok(_) => return String::new(rt.alloc()),
        Err(refusal) => return format!(in rt.alloc(); "{refusal}").expect(rt, "memory"),
    };
    let mut sink = SureSink::new(rt.alloc());
    let mut texts = RecordTexts::of(plan, loaded(rt, file));
    texts.write(rt.alloc(), &mut sink).expect(rt, "a sink");
    let lines = sink.written().to_vec(rt.alloc()).expect(rt, "memory");
    String::from_utf8(lines)
        .expect(rt, "text")
        .replace(rt.alloc(), '\n', ";")
        .expect(rt, "memory")
}

/// Compares what is printed over records of this layout with what is wanted, row by row.
fn prints<R: AllocGlobal + Wait + Abort>(rt: &R, layout: &str, rows: &str) {
    for row in rows.lines() {
        let (path, file, wanted) = parts_of(row);
        let found = printed(rt, layout, path, file);
        same(rt, (found.as_str(), row), (wanted, row));
    }
}

/// A sale: an id, a kind, a price and four tags.
const SALE: &str =
    "{'type':'struct','members':[{'type':'int','name':'id'},{'type':'short','name':'kind'},{'type':'padding','size':2},{'type':'long','name':'price'},{'type':'sequence','name':'tags','count':4,'element':{'type':'byte'}},{'type':'padding','size':4}]}";

/// Two sales, whose tags have no 0, one behind a byte, no text before it, and one at once.
const SALES: &str = "\
.tags 0100000002000000fa0000000000000001020304000000000200000003000000d8ffffffffffffff050000ff00000000 -> refused 61;text 05;
.tags 0100000002000000fa00000000000000ff000000000000000200000003000000d8ffffffffffffff0000000000000000 -> refused 60 0;text;
.tags[] 0100000002000000fa0000000000000001020304000000000200000003000000d8ffffffffffffff050000ff00000000 -> 34 1
.tags[0] 0100000002000000fa0000000000000001020304000000000200000003000000d8ffffffffffffff050000ff00000000 -> 6
.price 0100000002000000fa0000000000000001020304000000000200000003000000d8ffffffffffffff050000ff00000000 -> 6
. 0100000002000000fa0000000000000001020304000000000200000003000000d8ffffffffffffff050000ff00000000 -> 6
.price.tags 0100000002000000fa0000000000000001020304000000000200000003000000d8ffffffffffffff050000ff00000000 -> 30 1
.tag 0100000002000000fa0000000000000001020304000000000200000003000000d8ffffffffffffff050000ff00000000 -> 31 0
tags 0100000002000000fa0000000000000001020304000000000200000003000000d8ffffffffffffff050000ff00000000 -> 50 0";

#[test]
fn texts_of_sales(rt: HostRuntime) {
    prints(&rt, SALE, SALES);
}

/// Twelve bytes, so that every other record begins within a word.
const TWELVE: &str = "{'type':'sequence','count':12,'element':{'type':'byte'}}";

/// Texts that fill their bytes but for the 0, that cross a word, that stop being text in a word or behind it, and what is
/// no record.
const WORDS: &str = "\
. 6162636465666768696a6b00c3a900006162636465666768 -> text 6162636465666768696a6b;text c3a9;
. 0061626364656667686900006162636465660000ffffffff -> text;text 616263646566;
. 6161c3286100000000000000616161616161616161ff6100 -> refused 60 2;refused 60 9;
. 6162636465666768696ae282 -> refused 61;
. 6162636465666768e2820000 -> refused 60 8;
. 61006162636465666768696a61 -> text 61;
. 6100 -> ";

#[test]
fn texts_across_words(rt: HostRuntime) {
    prints(&rt, TWELVE, WORDS);
}

/// A row of booleans, one of no bytes, and one of two rows of bytes.
const ROWS: &str =
    "{'type':'struct','members':[{'type':'sequence','name':'bits','count':2,'element':{'type':'boolean'}},{'type':'sequence','name':'none','count':0,'element':{'type':'byte'}},{'type':'sequence','name':'rows','count':2,'element':{'type':'sequence','count':2,'element':{'type':'byte'}}}]}";

const OF_ROWS: &str = "\
.bits 010061006200 -> 6
.none 010061006200 -> refused 61;
.rows 010061006200 -> 6
.rows[1] 010061006200 -> text 62;";

#[test]
fn texts_of_rows(rt: HostRuntime) {
    prints(&rt, ROWS, OF_ROWS);
}

/// Two bytes, of which a text has at most one.
const PAIR: &str = "{'type':'sequence','count':2,'element':{'type':'byte'}}";

/// The answer of writing 10,000 lines of 8 bytes to a sink whose second write fails, and how many bytes it took.
fn long_answer<R: AllocGlobal + Wait + Abort>(rt: &R, failing: Vec<u64>) -> (bool, usize) {
    let plan = planned(rt.alloc(), PAIR, ".").expect(rt, "a plan");
    let mut sink = MemSink::new(rt.alloc(), failing);
    let records = "6100".repeat(rt.alloc(), 10_000).expect(rt, "memory");
    if plan.size == 0 {
        return (false, 0);
    }
    let answer = RecordTexts::of(plan, loaded(rt, &records)).write(rt.alloc(), &mut sink);
    (answer.is_ok(), sink.written().len())
}

#[test]
fn lines_are_sent_in_pieces(rt: HostRuntime) {
    let first = vec![in rt.alloc(); 0].expect(&rt, "memory");
    let second = vec![in rt.alloc(); 1].expect(&rt, "memory");
    same(&rt, long_answer(&rt, Vec::new(rt.alloc())), (true, 80_000));
    same(&rt, long_answer(&rt, first), (false, 0));
    same(&rt, long_answer(&rt, second), (false, 65_536));
}
