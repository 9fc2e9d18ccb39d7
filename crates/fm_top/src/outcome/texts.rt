ghost use Rattle.std.specs.Prelude.{◌<◌, ⊤};
ghost use Rattle.fm_top.specs.Ends.{EndsFile};
ghost use Rattle.fm_top.specs.Queries.{PlanEnds};
ghost use Rattle.fm_top.specs.declared.command.wish.Wish.TheVariants as wish;
ghost use Rattle.fm_top_texts.specs.Plans.{LiesWithin};

use crate::outcome::host::Host;
use crate::outcome::left::Left;
use crate::outcome::output::Output;
use crate::outcome::reply::Reply;
use crate::outcome::stop::Stop;
use crate::outcome::stopping::of_file;
use fm_io::{Files, Gate};
use fm_top_load::{RECORD_FILE_LIMIT, load};
use fm_top_texts::{RecordTexts, TextPlan};
use std::sync::Wait;

/// Reads the record file, and answers with the texts of its records.
pub fn texts_reply<'a, R: Wait, F: Files, G: Gate>(
    host: &Host<'_, R, G>,
    files: &mut F,
    file: &'a str,
    plan: TextPlan,
) -> Result<Reply, Stop<'a>>
    requires sized { 0 < plan.size }
    requires within { LiesWithin plan }
    ensures { EndsFile file.now RECORD_FILE_LIMIT ⊤ (PlanEnds wish.Texts plan file.now)
        (F.view files.old)
        (F.view files.new) result }
{
    let loaded = load(host.rt, host.alloc, files, file, plan.size);
    let loaded = of_file(file, loaded)?;
    Ok(Reply {
        text: Output::Texts(RecordTexts::of(plan, loaded)),
        left: Left::Nothing,
    })
}
