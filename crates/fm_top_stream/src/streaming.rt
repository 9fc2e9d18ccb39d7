ghost use Rattle.std.specs.Prelude.{◌≡◌, ◌+◌, length, IfOk};
ghost use Rattle.std.specs.Result.{result_err};
ghost use Rattle.fm_top_load.specs.Reading.{GoesBy, ReadsFurther, ReadsSome};
ghost use Rattle.fm_top_load.specs.Records.{TellsRecords};
ghost use Rattle.fm_top_load.specs.Whole.{ByReads, TellsLoad};
ghost use Rattle.fm_top_stream.specs.Chunks.{stream_file_limit};
ghost use Rattle.fm_top_stream.specs.Gone.{CanAsk, CanBegin, CanGoThrough, GoneThrough, HasNext};

use crate::crew::Crew;
use crate::giving::give_chunk;
use crate::opening::open_chunk;
use crate::placed::Placed;
use crate::round::take_chunk;
use crate::stream::STREAM_FILE_LIMIT;
use crate::under_way::UnderWay;
use fm_arena::Shared;
use fm_io::{Files, Gate};
use fm_records::of_no_records;
use fm_rule::Pass;
use fm_top_load::{LoadFault, Portion, Room, Stretch, check_records, put_stretch};
use std::sync::Wait;
use std::thread::Threads;

/// Puts the file's first chunk, whose first portion was read, into an arena.
fn begin<R: Wait, F: Files, G: Gate>(
    rt: &R,
    files: &mut F,
    stretch: &Stretch<'_>,
    crew: &Crew<'_, G>,
    going: UnderWay,
) -> Result<(UnderWay, Placed), LoadFault>
    requires { CanBegin stretch.now (F.view files.old).holds crew.now.threads crew.now.q.now crew.now.pool.now going }
    ensures has { IfOk result (λ r. HasNext stretch.now.limit stretch.now.most (F.view files.old).holds
        stretch.now.name.now stretch.now.at crew.now.q.now crew.now.pool.now r.0 r.1) }
    ensures reads { ReadsFurther (F.view files.old).reads (F.view files.new).reads stretch.now.name.now
        stretch.now.limit (GoesBy going.portion.ended (stretch.now.at + length going.portion.bytes))
        (λ next. IfOk result (λ r. GoesBy r.1.chunk.ended (stretch.now.at + r.1.chunk.count) next)) }
    ensures tells { TellsLoad ByReads stretch.now.limit (F.view files.old) (F.view files.new) stretch.now.name.now
        (result_err result) }
{
    let UnderWay {
        mut pass,
        answer,
        mut portion,
    } = going;
    let arena = open_chunk(rt, crew.pool, &mut pass);
    give_chunk(rt, crew.pool, &mut pass, arena, stretch.most);
    let mut memory = Shared::new(crew.pool, pass);
    let room = Room::Given(arena);
    let chunk = match put_stretch(rt, files, stretch, &mut portion, &mut memory, room) {
        Ok(chunk) => chunk,
        Err(fault) => return Err(fault),
    };
    let going = UnderWay {
        pass: memory.into_pass(),
        answer,
        portion,
    };
    Ok((going, Placed { arena, chunk }))
}

/// Has chunk after chunk answered over, each while the next one is put, up to the file's end, unless that is no whole
/// record.
fn take_chunks<R: Threads + Wait + Sync, F: Files, G: Gate>(
    rt: &R,
    files: &mut F,
    crew: &Crew<'_, G>,
    mut going: UnderWay,
    mut standing: Placed,
) -> Result<UnderWay, LoadFault>
    requires asks { CanAsk crew.now.most crew.now.threads crew.now.q.now crew.now.pool.now }
    requires has { HasNext stream_file_limit crew.now.most (F.view files.old).holds crew.now.name.now 0
        crew.now.q.now crew.now.pool.now going standing }
    ensures goes { IfOk result (λ r. GoneThrough stream_file_limit (F.view files.old).holds crew.now.name.now
        crew.now.most crew.now.pool.now r.pass crew.now.q.now r.answer) }
    ensures reads { ReadsFurther (F.view files.old).reads (F.view files.new).reads crew.now.name.now
        stream_file_limit (GoesBy standing.chunk.ended standing.chunk.count) (λ next. Unit {0}) }
    ensures tells { TellsRecords stream_file_limit (F.view files.old) (F.view files.new) crew.now.name.now
        crew.now.q.now.size (result_err result) }
{
    let mut at = 0u64;
    'chunks: loop {
        let count = standing.chunk.count;
        if let Err(fault) = check_records(count, crew.q.record_size()) {
            return Err(fault);
        }
        at += count;
        let stretch = Stretch {
            name: crew.name,
            limit: STREAM_FILE_LIMIT,
            at,
            most: crew.most,
        };
        let (then, next) = match take_chunk(rt, files, &stretch, crew, going, standing) {
            Ok(gone) => gone,
            Err(fault) => return Err(fault),
        };
        going = then;
        match next {
            Some(chunk) => standing = chunk,
            None => return Ok(going),
        }
    }
}

/// Goes through the file in chunks, and answers the crew's query over them.
pub(crate) fn go_through<R: Threads + Wait + Sync, F: Files, G: Gate>(
    rt: &R,
    files: &mut F,
    crew: &Crew<'_, G>,
    pass: Pass,
    mut portion: Portion,
) -> Result<UnderWay, LoadFault>
    requires can { CanGoThrough crew.now.most crew.now.threads crew.now.q.now crew.now.pool.now pass }
    ensures goes { IfOk result (λ r. GoneThrough stream_file_limit (F.view files.old).holds crew.now.name.now
        crew.now.most crew.now.pool.now r.pass crew.now.q.now r.answer) }
    ensures reads { ReadsSome (F.view files.old).reads (F.view files.new).reads crew.now.name.now
        stream_file_limit }
    ensures tells { TellsRecords stream_file_limit (F.view files.old) (F.view files.new) crew.now.name.now
        crew.now.q.now.size (result_err result) }
{
    let Ok(answer) = of_no_records(crew.alloc, crew.q) else {
        return Err(LoadFault::Memory);
    };
    let stretch = Stretch {
        name: crew.name,
        limit: STREAM_FILE_LIMIT,
        at: 0,
        most: crew.most,
    };
    if let Err(fault) = portion.read(files, &stretch) {
        return Err(fault);
    }
    let none = portion.len() == 0;
    let going = UnderWay {
        pass,
        answer,
        portion,
    };
    if none {
        return Ok(going);
    }
    match begin(rt, files, &stretch, crew, going) {
        Ok((going, standing)) => take_chunks(rt, files, crew, going, standing),
        Err(fault) => Err(fault),
    }
}
