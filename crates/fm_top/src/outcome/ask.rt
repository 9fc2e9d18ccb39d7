ghost use Rattle.std.specs.Prelude.{◌≡◌, ◌≤◌, ◌⊎◌, length, IfOk, IfErr};
ghost use Rattle.fm_layout.specs.WellFormed.{IsWellFormed};
ghost use Rattle.fm_top.specs.Ends.{EndsRequest};
ghost use Rattle.fm_top.specs.Queries.{IsLayoutRefused, IsRecordLayout, IsSmall};
ghost use Rattle.fm_top.specs.Words.{Ask, CanBeWished};

use crate::command::{AskCommand, Question, Wish};
use crate::outcome::group::{GroupPlan, plan_group};
use crate::outcome::host::Host;
use crate::outcome::plan::{PoolPlan, plan_for};
use crate::outcome::reply::Reply;
use crate::outcome::stop::Stop;
use crate::outcome::stopping::{of_file, of_layout, of_query};
use crate::outcome::texts::texts_reply;
use fm_base::Refusal;
use fm_io::{Files, Gate};
use fm_layout::Layout;
use fm_ljson::layout_from_json;
use fm_records_query::check_record;
use fm_top_load::{LAYOUT_FILE_LIMIT, read_whole};
use fm_top_stream::MOST_CHUNK;
use fm_top_texts::plan_texts;
use std::alloc::Global;
use std::sync::Wait;
use std::thread::Threads;

/// Reads the layout's file, then the text, then the record file, and answers what is asked. A file is read only where all
/// before it stands.
pub fn ask_reply<'a, R: Threads + Wait + Sync, F: Files, G: Gate>(
    host: &Host<'_, R, G>,
    files: &mut F,
    ask: &AskCommand<'a>,
) -> Result<Reply, Stop<'a>>
    requires { CanBeWished ask.now.wish }
    ensures { EndsRequest
        (Ask ask.now.wish ask.now.layout.now ask.now.text.now ask.now.file.now)
        (F.view files.old)
        (F.view files.new) result }
{
    let bytes = read_whole(host.alloc, files, ask.layout, LAYOUT_FILE_LIMIT);
    let bytes = of_file(ask.layout, bytes)?;
    let layout = of_layout(record_layout(host.alloc, ask.wish, &bytes))?;
    match ask.wish {
        Wish::Answer(question, threads) => {
            let query = of_query(plan_for(host.alloc, question, ask.text, &layout))?;
            let plan = PoolPlan {
                file: ask.file,
                question,
                threads,
                query,
            };
            plan.reply(host, files)
        }
        Wish::Group(threads) => {
            let path = of_query(plan_group(host.alloc, ask.text, &layout))?;
            let plan = GroupPlan {
                file: ask.file,
                threads,
                path,
            };
            plan.reply(host, files)
        }
        Wish::Texts => {
            let plan = of_query(plan_texts(host.alloc, &layout, ask.text))?;
            texts_reply(host, files, ask.file, plan)
        }
    }
}

/// The layout of records for which the bytes stand. Refused: as `layout_from_json`, then as `check_record`, then as
/// `check_size`.
fn record_layout(alloc: Global, wish: Wish, bytes: &[u8]) -> Result<Layout, Refusal>
    requires { length bytes.now ≤ LAYOUT_FILE_LIMIT }
    ensures layout { IfOk result (IsRecordLayout wish bytes.now) }
    ensures well_formed { IfOk result IsWellFormed }
    ensures refused { IfErr result (λ refusal.
        IsLayoutRefused wish bytes.now refusal ⊎ (refusal ≡ Refusal.Memory)) }
{
    let layout = layout_from_json(alloc, bytes)?;
    check_record(&layout)?;
    check_size(wish, &layout)?;
    Ok(layout)
}

/// Whether a record of the layout has room for what is asked. Refused: `Overflow`, where a stream's has not.
fn check_size(wish: Wish, layout: &Layout) -> Result<(), Refusal>
    ensures small { IfOk result (λ _. IsSmall wish layout.now) }
    ensures well_formed { IsWellFormed layout.now }
    ensures large { IfErr result (λ refusal. ¬ (IsSmall wish layout.now) × (refusal ≡ Refusal.Overflow)) }
{
    let size = layout.size();
    match wish {
        Wish::Answer(Question::Stream, _) if size > MOST_CHUNK => Err(Refusal::Overflow),
        Wish::Answer(_, _) | Wish::Group(_) | Wish::Texts => Ok(()),
    }
}
