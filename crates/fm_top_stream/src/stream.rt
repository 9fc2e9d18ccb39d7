ghost use Rattle.std.specs.Prelude.{◌≡◌, IfOk};
ghost use Rattle.std.specs.Result.{result_err};
ghost use Rattle.fm_top_load.specs.Reading.{ReadsSome};
ghost use Rattle.fm_top_load.specs.Records.{TellsRecords};
ghost use Rattle.fm_top_stream.specs.Shapes.{CanStream};
ghost use Rattle.fm_top_stream.specs.Shown.{Streams};

use crate::crew::Crew;
use crate::shape::{chunk_bytes, shape_of};
use crate::streaming::go_through;
use fm_io::{Files, Gate};
use fm_records::Answer;
use fm_records_query::Query;
use fm_rule::{Finished, Pool};
use fm_top_load::{LoadFault, Portion};
use fm_top_pooled::take_apart;
use std::alloc::Global;
use std::sync::Wait;
use std::thread::Threads;

/// The most bytes of a file that goes through a pool.
pub const STREAM_FILE_LIMIT: u64 = 1_099_511_627_776;

/// What a query answers over the records of a file, chunk by chunk, by crews of so many workers, each in a thread of its
/// own where one can be started; and the finished pool through which the file went. The query's record has at most
/// 1,048,576 bytes.
///
/// Workers are numbered from 1; each share of a chunk that a worker takes is a call of the gate, counted from 0 for each
/// worker and chunk. What a read brings is put before the next read, so the list of the file's bytes is nowhere.
///
/// A fault comes when it is met, and ends the stream: `Missing`, `Failed` and `TooLong` at a read, `Ragged` at the file's
/// end, `Memory` also before the first read.
pub fn stream_with<R: Threads + Wait + Sync, F: Files, G: Gate>(
    rt: &R,
    alloc: Global,
    files: &mut F,
    name: &str,
    q: &Query,
    threads: u32,
    gate: &G,
) -> Result<(Answer, Finished), LoadFault>
    requires { CanStream q.now threads }
    ensures streams { IfOk result (λ r. Streams threads (F.view files.old).holds name.now q.now r.0 r.1) }
    ensures reads { ReadsSome (F.view files.old).reads (F.view files.new).reads name.now
        STREAM_FILE_LIMIT }
    ensures tells { TellsRecords STREAM_FILE_LIMIT (F.view files.old) (F.view files.new) name.now q.now.size
        (result_err result) }
{
    let Ok((pool, pass)) = Pool::make(alloc, shape_of(threads)) else {
        return Err(LoadFault::Memory);
    };
    let Ok(portion) = Portion::none(alloc) else {
        return Err(LoadFault::Memory);
    };
    let crew = Crew {
        alloc,
        name,
        most: chunk_bytes(q),
        pool: &pool,
        q,
        threads,
        gate,
    };
    let gone = match go_through(rt, files, &crew, pass, portion) {
        Ok(gone) => gone,
        Err(fault) => return Err(fault),
    };
    let finished = take_apart(alloc, pool, gone.pass);
    Ok((gone.answer, finished))
}
