ghost use Rattle.std.specs.Prelude.{◌≡◌, IfOk};
ghost use Rattle.fm_records_query.specs.Parsed.{IsParsed};
ghost use Rattle.fm_records_query.specs.Records.{IsRecord};
ghost use Rattle.fm_top_demo.specs.Records.{made_records};
ghost use Rattle.fm_top.specs.Demos.{AreMadeQueries, DemoEnds, IsQueryOver};
ghost use Rattle.fm_top.specs.Ending.{shown};
ghost use Rattle.fm_top.specs.Words.{AreThreads, IsCount};

use crate::command::DemoCommand;
use crate::outcome::answered::Answered;
use crate::outcome::demo_layout::demo_layout;
use crate::outcome::host::Host;
use crate::outcome::left::Left;
use crate::outcome::output::Output;
use crate::outcome::reply::Reply;
use fm_io::Gate;
use fm_layout::Layout;
use fm_records_query::{Query, parse_query};
use fm_top_demo::made_records;
use fm_top_pooled::{Pooled, unless_wanting};
use std::alloc::{AllocError, Global};
use std::sync::Wait;
use std::thread::Threads;

/// Makes so many records, and answers two queries over them.
pub fn demo_reply<R: Threads + Wait + Sync, G: Gate>(
    host: &Host<'_, R, G>,
    demo: &DemoCommand,
) -> Result<Reply, AllocError>
    requires threads { AreThreads demo.now.threads }
    requires count { IsCount demo.now.count }
    ensures { IfOk result (λ reply. DemoEnds demo.now.count (shown reply)) }
{
    let (first, second) = make_queries(host.alloc)?;
    let pooled = make_pool(host.rt, host.alloc, demo.count)?;
    let threads = demo.threads as u32;
    let (one, two, finished) = pooled.answer_both(
        host.rt, host.alloc, &first, &second, threads, host.gate,
    )?;
    let one = Answered {
        query: first,
        answer: one,
    };
    let two = Answered {
        query: second,
        answer: two,
    };
    Ok(Reply {
        text: Output::Both(one, two),
        left: Left::Pool(finished),
    })
}

/// So many records, in a pool of their own.
fn make_pool<R: Wait>(rt: &R, alloc: Global, count: u64) -> Result<Pooled, AllocError>
    requires { IsCount count }
    ensures { IfOk result (λ pooled. pooled.bytes ≡ made_records count) }
{
    let records = made_records(alloc, count as u32)?;
    Pooled::of_bytes(rt, alloc, records)
}

/// The two queries.
fn make_queries(alloc: Global) -> Result<(Query, Query), AllocError>
    ensures { IfOk result (λ queries. AreMadeQueries queries.0 queries.1) }
{
    let layout = demo_layout(alloc)?;
    let first = make_query(
        alloc,
        "count,sum(.amount),min(.amount),max(.amount)",
        &layout,
    )?;
    let second = make_query(alloc, "count,sum(.id) where .kind=3", &layout)?;
    Ok((first, second))
}

/// The query of a text, which is one over the layout.
fn make_query(alloc: Global, text: &str, layout: &Layout) -> Result<Query, AllocError>
    requires record { IsRecord layout.now }
    requires query { IsQueryOver text.now layout.now }
    ensures { IfOk result (IsParsed text.now layout.now) }
{
    unless_wanting(parse_query(alloc, text, layout))
}
