//! Layouts, paths, queries, groups and texts for C: each export hands a call of `fm_c_calls` on, under C's rules.
//!
//! An export's clause is that of the call, and that just what came of it is told. `include/fmem.h` says each in words.
#![tactic(auto)]

ghost use Rattle.std.specs.Prelude.{◌≡◌, None};
ghost use Rattle.fm_c_calls.specs.Asked.{MakesQuery, PutsKept};
ghost use Rattle.fm_c_calls.specs.Grouped.{PutsGroups};
ghost use Rattle.fm_c_calls.specs.Held.{PutsAnswer};
ghost use Rattle.fm_c_calls.specs.Kept.{Keeps};
ghost use Rattle.fm_c_calls.specs.Located.{FindsAt};
ghost use Rattle.fm_c_calls.specs.Numbered.{PutsNumbers};
ghost use Rattle.fm_c_calls.specs.Placed.{PutsPlace};
ghost use Rattle.fm_c_calls.specs.Reading.{Lists, Measures};
ghost use Rattle.fm_c_calls.specs.Reports.{PutsText, Tells};
ghost use Rattle.fm_c_calls.specs.Texts.{PutsTexts};

use fm_c_calls::{
    Counted, Extent, Handle, Place, Report, Stride, Within, ask_query, find_at, free_query, list,
    make_query, measure, put_answer, put_groups, put_numbers, put_place, put_report, put_texts,
};
use std::alloc::Global;

/// Puts how long a layout is, and how it is aligned.
#[unsafe(no_mangle)]
pub extern "C" fn fm_layout(
    alloc: Global,
    layout: &[u8],
    extent: &mut Extent,
    report: &mut Report,
) -> u64
    ensures { Tells (Measures layout.now extent.old extent.new) result report.new }
{
    report.tell(measure(alloc, layout, extent))
}

/// Puts the text that lists a layout's places.
#[unsafe(no_mangle)]
pub extern "C" fn fm_places(
    alloc: Global,
    layout: &[u8],
    out: &mut [u8],
    report: &mut Report,
) -> u64
    ensures { Tells (Lists layout.now out.old out.new) result report.new }
{
    report.tell(list(alloc, layout, out))
}

/// Puts where a path leads, and the strides of its open steps.
#[unsafe(no_mangle)]
pub extern "C" fn fm_place(
    alloc: Global,
    layout: &[u8],
    path: &[u8],
    place: &mut Place,
    strides: &mut [Stride],
    report: &mut Report,
) -> u64
    ensures { Tells (PutsPlace layout.now path.now place.old place.new strides.old strides.new) result report.new }
{
    report.tell(put_place(alloc, layout, path, place, strides))
}

/// Puts where the value of a place stands at indices, in the bytes in which its record stands.
#[unsafe(no_mangle)]
pub extern "C" fn fm_at(
    place: &Place,
    strides: &[Stride],
    indices: &[u64],
    within: &Within,
    at: &mut u64,
    report: &mut Report,
) -> u64
    ensures { Tells (FindsAt place.now strides.now indices.now within.now at.old at.new) result report.new }
{
    report.tell(find_at(place, strides, indices, within, at))
}

/// Puts the text of what a query answers over records.
#[unsafe(no_mangle)]
pub extern "C" fn fm_query(
    alloc: Global,
    layout: &[u8],
    query: &[u8],
    records: &[u8],
    out: &mut [u8],
    report: &mut Report,
) -> u64
    ensures { Tells (PutsAnswer layout.now query.now records.now out.old out.new) result report.new }
{
    report.tell(put_answer(alloc, layout, query, records, out))
}

/// Keeps a query behind the handle, so that it isn't read anew each time.
#[unsafe(no_mangle)]
pub extern "C" fn fm_query_make(
    alloc: Global,
    layout: &[u8],
    query: &[u8],
    handle: &mut Handle,
    report: &mut Report,
) -> u64
    ensures { Tells (MakesQuery layout.now query.now handle.old.query handle.new.query) result report.new }
{
    report.tell(make_query(alloc, layout, query, handle))
}

/// Puts the text of what the kept query answers over records.
#[unsafe(no_mangle)]
pub extern "C" fn fm_query_ask(
    alloc: Global,
    handle: &mut Handle,
    records: &[u8],
    out: &mut [u8],
    report: &mut Report,
) -> u64
    requires { Keeps handle.old.query }
    ensures kept { handle.new.query ≡ handle.old.query }
    ensures told { Tells (PutsKept handle.old.query records.now out.old out.new) result report.new }
{
    report.tell(ask_query(alloc, handle, records, out))
}

/// Frees the kept query.
#[unsafe(no_mangle)]
pub extern "C" fn fm_query_free(alloc: Global, handle: &mut Handle) -> u64
    requires { Keeps handle.old.query }
    ensures kept { handle.new.query ≡ None }
    ensures answers { result ≡ 0 }
{
    free_query(alloc, handle);
    0
}

/// Puts the numbers that the items of a query find in records.
#[unsafe(no_mangle)]
pub extern "C" fn fm_numbers(
    alloc: Global,
    layout: &[u8],
    query: &[u8],
    records: &[u8],
    out: &mut [i64],
    report: &mut Report,
) -> u64
    ensures { Tells (PutsNumbers layout.now query.now records.now out.old out.new) result report.new }
{
    report.tell(put_numbers(alloc, layout, query, records, out))
}

/// Puts how often each number comes among the values of a path in records.
#[unsafe(no_mangle)]
pub extern "C" fn fm_groups(
    alloc: Global,
    layout: &[u8],
    path: &[u8],
    records: &[u8],
    out: &mut [Counted],
    report: &mut Report,
) -> u64
    ensures { Tells (PutsGroups layout.now path.now records.now out.old out.new) result report.new }
{
    report.tell(put_groups(alloc, layout, path, records, out))
}

/// Puts the lines of the texts to which a path leads in records.
#[unsafe(no_mangle)]
pub extern "C" fn fm_texts(
    alloc: Global,
    layout: &[u8],
    path: &[u8],
    records: &[u8],
    out: &mut [u8],
    report: &mut Report,
) -> u64
    ensures { Tells (PutsTexts layout.now path.now records.now out.old out.new) result report.new }
{
    report.tell(put_texts(alloc, layout, path, records, out))
}

/// Puts the text of a refusal that another call told.
#[unsafe(no_mangle)]
pub extern "C" fn fm_refusal(
    alloc: Global,
    told: &Report,
    out: &mut [u8],
    report: &mut Report,
) -> u64
    ensures { Tells (PutsText told.now out.old out.new) result report.new }
{
    report.tell(put_report(alloc, told, out))
}
