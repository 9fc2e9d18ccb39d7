ghost use Rattle.std.specs.Prelude.{◌≡◌, ◌≢◌, ◌≤◌, ◌%◌, ⊤, length, IfErr, IfOk};
ghost use Rattle.fm_layout.specs.WellFormed.{IsWellFormed};
ghost use Rattle.fm_records_query.specs.Records.{IsRecord};
ghost use Rattle.fm_top_load.specs.Limits.{record_file_limit};
ghost use Rattle.fm_top_pooled.specs.Grouped.{HasValues, values_in};
ghost use Rattle.fm_top.specs.Ending.{shown};
ghost use Rattle.fm_top.specs.Ends.{EndsFile};
ghost use Rattle.fm_top.specs.Grouped.{IsGroupAnswered, IsGroupPlanned, IsGroupRefused};
ghost use Rattle.fm_top.specs.Queries.{PlanEnds};
ghost use Rattle.fm_top.specs.Words.{AreThreads};
ghost use Rattle.fm_top.specs.declared.command.wish.Wish.TheVariants as wish;

use crate::outcome::host::Host;
use crate::outcome::left::Left;
use crate::outcome::output::Output;
use crate::outcome::reply::Reply;
use crate::outcome::stop::Stop;
use crate::outcome::stopping::of_file;
use fm_base::Refusal;
use fm_group_text::print_groups;
use fm_io::{Files, Gate};
use fm_layout::Layout;
use fm_path::{Resolved, parse_path, resolve};
use fm_top_pooled::{Pooled, RecordFile, TABLE_LIMIT, VALUES_LIMIT, values_in};
use std::alloc::{AllocError, Global};
use std::sync::Wait;
use std::thread::Threads;

/// What was read of a grouping: the path whose values a pool groups over the records of the file, with so many threads.
#[derive(Drop)]
pub struct GroupPlan<'a> {
    pub file: &'a str,
    pub threads: u64,
    pub path: Resolved,
}

/// The path that this text comes to. Refused: as `parse_path`; as `resolve`.
pub fn plan_group(alloc: Global, text: &str, layout: &Layout) -> Result<Resolved, Refusal>
    requires well_formed { IsWellFormed layout.now }
    requires records { IsRecord layout.now }
    ensures planned { IfOk result (IsGroupPlanned text.now layout.now) }
    ensures has_values { IfOk result HasValues }
    ensures refused { IfErr result (λ e. e ≢ Refusal.Memory → IsGroupRefused text.now layout.now e) }
{
    let path = parse_path(alloc, text)?;
    resolve(alloc, layout, &path)
}

impl<'a> GroupPlan<'a> {
    /// Reads the record file, and groups the values in it, unless they are too many.
    pub fn reply<R: Threads + Wait + Sync, F: Files, G: Gate>(
        self,
        host: &Host<'_, R, G>,
        files: &mut F,
    ) -> Result<Reply, Stop<'a>>
        requires threads { AreThreads self.threads }
        requires path { HasValues self.path }
        ensures { EndsFile self.entry.file.now record_file_limit ⊤
            (PlanEnds (wish.Group self.entry.threads) self.entry.path self.entry.file.now)
            (F.view files.old)
            (F.view files.new) result }
    {
        // How many values there are isn't known before the file is read.
        let records = RecordFile {
            name: self.file,
            record_size: self.path.root_size(),
            guess: files.guess(self.file),
            beside: TABLE_LIMIT,
        };
        let pooled = Pooled::load(host.rt, host.alloc, files, &records);
        let pooled = of_file(self.file, pooled)?;
        if values_in(&self.path, pooled.len()) > VALUES_LIMIT {
            return Err(Stop::TooLong);
        }
        Ok(self.group(host, pooled)?)
    }

    /// The groups of the values in these bytes.
    fn group<R: Threads + Wait + Sync, G: Gate>(
        self,
        host: &Host<'_, R, G>,
        pooled: Pooled,
    ) -> Result<Reply, AllocError>
        requires threads { AreThreads self.threads }
        requires path { HasValues self.path }
        requires even { length pooled.bytes % self.path.root_size ≡ 0 }
        requires few { values_in self.path (length pooled.bytes) ≤ VALUES_LIMIT }
        requires beside { TABLE_LIMIT ≤ pooled.beside }
        ensures { IfOk result (λ reply. IsGroupAnswered self.entry.path pooled.bytes (shown reply)) }
    {
        let threads = self.threads as u32;
        let (groups, finished) = pooled.group(host.rt, host.alloc, self.path, threads, host.gate)?;
        let text = print_groups(host.alloc, &groups)?;
        Ok(Reply {
            text: Output::Whole(text),
            left: Left::Pool(finished),
        })
    }
}
