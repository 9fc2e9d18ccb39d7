ghost use Rattle.std.specs.Prelude.{◌≡◌, ◌≤◌, ◌%◌, ⊤, length, IfOk};
ghost use Rattle.fm_top.specs.Ending.{shown};
ghost use Rattle.fm_top.specs.Ends.{EndsFile};
ghost use Rattle.fm_top.specs.Queries.{IsAnswered, PlanEnds, records_limit};
ghost use Rattle.fm_top.specs.Words.{AreThreads};
ghost use Rattle.fm_top.specs.declared.command.wish.Wish.TheVariants as wish;
ghost use Rattle.fm_workers.specs.Counts.{IsTally};

use crate::command::Question;
use crate::outcome::answered::Answered;
use crate::outcome::host::Host;
use crate::outcome::left::Left;
use crate::outcome::output::Output;
use crate::outcome::plan::PoolPlan;
use crate::outcome::reply::Reply;
use crate::outcome::stop::Stop;
use crate::outcome::stopping::of_file;
use fm_io::{Files, Gate};
use fm_top_pooled::{COUNTS_SIZE, Pooled, RecordFile};
use fm_top_stream::{MOST_CHUNK, stream_with};
use fm_workers::print_counts;
use std::alloc::AllocError;
use std::sync::Wait;
use std::thread::Threads;

impl<'a> PoolPlan<'a> {
    /// Reads the record file, and answers the question over it.
    pub fn reply<R: Threads + Wait + Sync, F: Files, G: Gate>(
        self,
        host: &Host<'_, R, G>,
        files: &mut F,
    ) -> Result<Reply, Stop<'a>>
        requires threads { AreThreads self.threads }
        requires tally { self.question ≡ Question.Tally → IsTally self.query }
        requires stream { self.question ≡ Question.Stream → self.query.size ≤ MOST_CHUNK }
        ensures { EndsFile self.entry.file.now (records_limit (wish.Answer self.entry.question self.entry.threads)) ⊤
            (PlanEnds (wish.Answer self.entry.question self.entry.threads) self.entry.query self.entry.file.now)
            (F.view files.old)
            (F.view files.new) result }
    {
        let mut records = RecordFile {
            name: self.file,
            record_size: self.query.record_size(),
            guess: files.guess(self.file),
            beside: 0,
        };
        match self.question {
            Question::Stream => self.stream(host, files),
            Question::Query => {
                let pooled = Pooled::load(host.rt, host.alloc, files, &records);
                let pooled = of_file(self.file, pooled)?;
                Ok(self.answer(host, pooled)?)
            }
            Question::Tally => {
                records.beside = COUNTS_SIZE;
                let pooled = Pooled::load(host.rt, host.alloc, files, &records);
                let pooled = of_file(self.file, pooled)?;
                Ok(self.tally(host, pooled)?)
            }
        }
    }

    /// Takes the record file through a pool, chunk by chunk.
    fn stream<R: Threads + Wait + Sync, F: Files, G: Gate>(
        self,
        host: &Host<'_, R, G>,
        files: &mut F,
    ) -> Result<Reply, Stop<'a>>
        requires threads { AreThreads self.threads }
        requires small { self.query.size ≤ MOST_CHUNK }
        ensures { EndsFile self.entry.file.now (records_limit (wish.Answer Question.Stream self.entry.threads)) ⊤
            (PlanEnds (wish.Answer Question.Stream self.entry.threads) self.entry.query self.entry.file.now)
            (F.view files.old)
            (F.view files.new) result }
    {
        let threads = self.threads as u32;
        let query = self.query;
        let streamed = stream_with(
            host.rt, host.alloc, files, self.file, &query, threads, host.gate,
        );
        let (answer, finished) = of_file(self.file, streamed)?;
        Ok(Reply {
            text: Output::Answer(Answered { query, answer }),
            left: Left::Pool(finished),
        })
    }

    /// The query's answer over these bytes.
    fn answer<R: Threads + Wait + Sync, G: Gate>(
        self,
        host: &Host<'_, R, G>,
        pooled: Pooled,
    ) -> Result<Reply, AllocError>
        requires threads { AreThreads self.threads }
        requires even { length pooled.bytes % self.query.size ≡ 0 }
        ensures { IfOk result (λ reply.
            IsAnswered Question.Query self.entry.threads self.entry.query pooled.bytes (shown reply)) }
    {
        let threads = self.threads as u32;
        let query = self.query;
        let (answer, finished) = pooled.answer(host.rt, host.alloc, &query, threads, host.gate)?;
        Ok(Reply {
            text: Output::Answer(Answered { query, answer }),
            left: Left::Pool(finished),
        })
    }

    /// The counts of the values of these bytes.
    fn tally<R: Threads + Wait + Sync, G: Gate>(
        self,
        host: &Host<'_, R, G>,
        pooled: Pooled,
    ) -> Result<Reply, AllocError>
        requires threads { AreThreads self.threads }
        requires tally { IsTally self.query }
        requires beside { COUNTS_SIZE ≤ pooled.beside }
        requires even { length pooled.bytes % self.query.size ≡ 0 }
        ensures { IfOk result (λ reply.
            IsAnswered Question.Tally self.entry.threads self.entry.query pooled.bytes (shown reply)) }
    {
        let threads = self.threads as u32;
        let (counts, finished) = pooled.tally(
            host.rt,
            host.alloc,
            &self.query,
            threads,
            host.gate,
        )?;
        let text = print_counts(host.alloc, &counts)?;
        Ok(Reply {
            text: Output::Whole(text),
            left: Left::Pool(finished),
        })
    }
}
