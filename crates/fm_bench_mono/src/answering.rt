use fm_base::Kind;
use fm_io::{Files, Sink};
use fm_ljson::layout_from_json;
use fm_mono::Mono;
use fm_records::{query_segment, write_answer};
use fm_records_query::{Query, check_record, parse_query};
use fm_top_load::{LAYOUT_FILE_LIMIT, RECORD_FILE_LIMIT, load_into, open_held, read_whole};
use std::alloc::Global;
use std::sync::Wait;

/// The query that the text is, over records of the layout in the file; none where it is refused.
pub fn query_of<F: Files>(alloc: Global, files: &mut F, layout: &str, text: &str) -> Option<Query> {
    let bytes = read_whole(alloc, files, layout, LAYOUT_FILE_LIMIT).ok()?;
    let layout = layout_from_json(alloc, &bytes).ok()?;
    check_record(&layout).ok()?;
    parse_query(alloc, text, &layout).ok()
}

/// Prints what a query answers over the records of a file, loaded into an arena of one thread; none where it is refused.
pub fn print_answered<R: Wait, F: Files, O: Sink>(
    rt: &R,
    alloc: Global,
    files: &mut F,
    out: &mut O,
    query: &Query,
    file: &str,
) -> Option<()> {
    let mut memory = Mono::make(alloc, RECORD_FILE_LIMIT);
    let arena = open_held(rt, &mut memory, Kind::Confined).ok()?;
    let segment = load_into(rt, alloc, files, file, &mut memory, arena).ok()?;
    let answer = query_segment(alloc, &mut memory, query, &segment).ok()?;
    write_answer(alloc, out, query, &answer).ok()
}
