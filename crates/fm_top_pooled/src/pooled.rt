ghost use Rattle.std.specs.Prelude.{◌≡◌, ◌%◌, ◌<◌, ◌≤◌, length, IfOk};
ghost use Rattle.std.specs.Result.{result_err};
ghost use Rattle.fm_top_load.specs.Reading.{ReadsSome};
ghost use Rattle.fm_top_load.specs.Records.{TellsRecords};
ghost use Rattle.fm_top_load.specs.Whole.{IsWhole};
ghost use Rattle.fm_top_pooled.specs.Asking.{IsCrew};
ghost use Rattle.fm_top_pooled.specs.Grouped.{HasTableFor, HasValues, ShowsValues, values_in};
ghost use Rattle.fm_top_pooled.specs.Shown.{ShowsBoth, ShowsQuery};
ghost use Rattle.fm_group_lists.specs.Groups.{AreGroups};
ghost use Rattle.fm_group.specs.Values.{all_numbers};
ghost use Rattle.fm_records.specs.Answers.{answer};
ghost use Rattle.fm_workers.specs.Counts.{AreCounts, IsTally, listed};

use crate::asking::ask;
use crate::finishing::finish;
use crate::grouping::{VALUES_LIMIT, group, table_size};
use crate::loading::load_stock;
use crate::record_file::RecordFile;
use crate::stock::{Stock, stock_of_bytes};
use crate::stocking::open_beside;
use crate::tallying::{COUNTS_SIZE, count};
use fm_group::{CountTable, Groups, PlaceOrder, Values};
use fm_io::{Files, Gate};
use fm_path::Resolved;
use fm_records::Answer;
use fm_records_query::Query;
use fm_rule::Finished;
use fm_top_load::{LoadFault, RECORD_FILE_LIMIT, check_records};
use fm_workers::Counts;
use std::alloc::{AllocError, Global};
use std::marker::Model;
use std::sync::Wait;
use std::thread::Threads;

/// Bytes in a shared arena of a pool of their own, which has room for another arena beside it.
#[derive(Drop)]
pub struct Pooled {
    stock: Stock,
}

impl Model for Pooled {
    ghost use Rattle.fm_top_pooled.specs.Views.{PooledView};

    ghost Value = { PooledView };

    ghost use Rattle.fm_top_pooled.specs.Pooled.{pooled_of, HoldsBytes};

    ghost view = { pooled_of };

    ghost invariant = { HoldsBytes };
}

impl Pooled {
    /// Puts the bytes into a pool, which has just their room, and gives the list back.
    pub fn of_bytes<R: Wait>(rt: &R, alloc: Global, bytes: Vec<u8>) -> Result<Pooled, AllocError>
        requires { length bytes.items ≤ RECORD_FILE_LIMIT }
        ensures { IfOk result (λ pooled. pooled.bytes ≡ bytes.items) }
    {
        let stock = stock_of_bytes(rt, alloc, bytes, 0)?;
        Ok(Pooled { stock })
    }

    /// Reads a whole file of records into a pool, which has room for another arena beside that of the records.
    pub fn load<R: Wait, F: Files>(
        rt: &R,
        alloc: Global,
        files: &mut F,
        file: &RecordFile<'_>,
    ) -> Result<Pooled, LoadFault>
        requires sized { 0 < file.now.record_size }
        requires few { file.now.beside ≤ RECORD_FILE_LIMIT }
        ensures whole { IfOk result (λ pooled. IsWhole (F.view files.old).holds file.now.name.now pooled.bytes) }
        ensures short { IfOk result (λ pooled. length pooled.bytes ≤ RECORD_FILE_LIMIT) }
        ensures even { IfOk result (λ pooled. length pooled.bytes % file.now.record_size ≡ 0) }
        ensures beside { IfOk result (λ pooled. pooled.beside ≡ file.now.beside) }
        ensures reads { ReadsSome (F.view files.old).reads (F.view files.new).reads file.now.name.now
            RECORD_FILE_LIMIT }
        ensures tells { TellsRecords RECORD_FILE_LIMIT (F.view files.old) (F.view files.new) file.now.name.now
            file.now.record_size (result_err result) }
    {
        let stock = match load_stock(rt, alloc, files, file) {
            Ok(stock) => stock,
            Err(fault) => return Err(fault),
        };
        match check_records(stock.segment.size(), file.record_size) {
            Ok(()) => Ok(Pooled { stock }),
            Err(fault) => Err(fault),
        }
    }

    /// How many bytes there are.
    pub fn len(&self) -> u64
        ensures { result ≡ length self.now.bytes }
    {
        self.stock.segment.size()
    }

    /// What a query answers over the records, of which there is a whole number, by a crew of so many passes, each in a
    /// thread of its own where one can be started; and the pool, once it is finished.
    pub fn answer<R: Threads + Wait + Sync, G: Gate>(
        self,
        rt: &R,
        alloc: Global,
        q: &Query,
        threads: u32,
        gate: &G,
    ) -> Result<(Answer, Finished), AllocError>
        requires even { length self.bytes % q.now.size ≡ 0 }
        requires crew { IsCrew threads }
        ensures answer { IfOk result (λ r. r.0 ≡ answer q.now self.bytes) }
        ensures shows { IfOk result (λ r. ShowsQuery r.1 q.now self.bytes) }
    {
        let Stock {
            pool,
            mut pass,
            segment,
            ..
        } = self.stock;
        let found = ask(rt, alloc, &pool, &mut pass, &segment, q, threads, gate)?;
        let finished = finish(alloc, pool, pass, &segment);
        Ok((found, finished))
    }

    /// What two queries answer, one after the other, each by a crew of its own.
    pub fn answer_both<R: Threads + Wait + Sync, G: Gate>(
        self,
        rt: &R,
        alloc: Global,
        p: &Query,
        q: &Query,
        threads: u32,
        gate: &G,
    ) -> Result<(Answer, Answer, Finished), AllocError>
        requires first_even { length self.bytes % p.now.size ≡ 0 }
        requires second_even { length self.bytes % q.now.size ≡ 0 }
        requires crew { IsCrew threads }
        ensures first { IfOk result (λ r. r.0 ≡ answer p.now self.bytes) }
        ensures second { IfOk result (λ r. r.1 ≡ answer q.now self.bytes) }
        ensures shows { IfOk result (λ r. ShowsBoth r.2 p.now q.now self.bytes) }
    {
        let Stock {
            pool,
            mut pass,
            segment,
            ..
        } = self.stock;
        let first = ask(rt, alloc, &pool, &mut pass, &segment, p, threads, gate)?;
        let second = ask(rt, alloc, &pool, &mut pass, &segment, q, threads, gate)?;
        let finished = finish(alloc, pool, pass, &segment);
        Ok((first, second, finished))
    }

    /// How often each number comes that a query lists over the records, of which there is a whole number, by a crew of
    /// so many passes; and the pool, once it is finished. The query lists one path, of bytes or booleans. The passes
    /// share their counts in the arena beside.
    pub fn tally<R: Threads + Wait + Sync, G: Gate>(
        self,
        rt: &R,
        alloc: Global,
        q: &Query,
        threads: u32,
        gate: &G,
    ) -> Result<(Counts, Finished), AllocError>
        requires tally { IsTally q.now }
        requires even { length self.bytes % q.now.size ≡ 0 }
        requires crew { IsCrew threads }
        requires beside { COUNTS_SIZE ≤ self.beside }
        ensures counts { IfOk result (λ r. AreCounts (listed (answer q.now self.bytes)) r.0) }
        ensures shows { IfOk result (λ r. ShowsQuery r.1 q.now self.bytes) }
    {
        let Stock {
            pool,
            mut pass,
            segment,
            ..
        } = self.stock;
        let counts = open_beside(rt, &pool, &mut pass, &segment, COUNTS_SIZE);
        let found = count(
            rt, alloc, &pool, &mut pass, &segment, &counts, q, threads, gate,
        )?;
        let finished = finish(alloc, pool, pass, &segment);
        Ok((found, finished))
    }

    /// How often each number comes among the values of a path in the records, of which there is a whole number, by a crew
    /// of so many passes; and the pool, once it is finished. The passes share a table in the arena beside.
    pub fn group<R: Threads + Wait + Sync, G: Gate>(
        self,
        rt: &R,
        alloc: Global,
        path: Resolved,
        threads: u32,
        gate: &G,
    ) -> Result<(Groups, Finished), AllocError>
        requires path { HasValues path }
        requires even { length self.bytes % path.root_size ≡ 0 }
        requires few { values_in path (length self.bytes) ≤ VALUES_LIMIT }
        requires crew { IsCrew threads }
        requires beside { HasTableFor (values_in path (length self.bytes)) self.beside }
        ensures groups { IfOk result (λ r. AreGroups (all_numbers path self.bytes) r.0) }
        ensures shows { IfOk result (λ r. ShowsValues r.1 path self.bytes) }
    {
        let Stock {
            pool,
            mut pass,
            segment,
            ..
        } = self.stock;
        let values = Values::of(path, segment);
        let places = open_beside(rt, &pool, &mut pass, &segment, table_size(values.len()));
        let table = CountTable::with_order(places, values, PlaceOrder::Mixed);
        let found = group(rt, alloc, &pool, &mut pass, &table, threads, gate)?;
        let finished = finish(alloc, pool, pass, &segment);
        Ok((found, finished))
    }
}
