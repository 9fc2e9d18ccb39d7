ghost use Rattle.std.specs.Prelude.{◌≡◌, ◌+◌, None, length, IfOk};
ghost use Rattle.std.specs.Result.{result_err};
ghost use Rattle.fm_base.specs.View.{Did};
ghost use Rattle.fm_rule_calls.specs.Told.{view_of_pass};
ghost use Rattle.fm_top_load.specs.Reading.{GoesBy, ReadsFurther};
ghost use Rattle.fm_top_load.specs.Whole.{TellsLoad};
ghost use Rattle.fm_top_chunks.specs.Making.{ByAny, CanMake, IsMade, PutsChunk};

use crate::filling::Filling;
use crate::made::Made;
use fm_arena::Shared;
use fm_io::Files;
use fm_top_load::{LoadFault, Portion, Room, check_records, put_stretch};
use fm_workers_chunks::Chunk;
use std::sync::Wait;

/// Puts a chunk, whose first portion was read, to its arena's start, and makes a note of that. Others may be at work
/// meanwhile.
///
/// A fault comes as at `put_stretch`, and `Ragged` where the file ends with a part of a record. What was put before it
/// stays put.
pub fn make_chunk<R: Wait, F: Files>(
    rt: &R,
    files: &mut F,
    memory: &mut Shared,
    portion: &mut Portion,
    filling: &Filling<'_>,
) -> Result<Made, LoadFault>
    requires { CanMake filling.now (F.view files.old).holds portion.old memory.old }
    ensures did { Did (view_of_pass memory.old) (view_of_pass memory.new)
        (PutsChunk filling.now (F.view files.old).holds memory.old.caller portion.old result) }
    ensures made { IfOk result (IsMade filling.now (F.view files.old).holds memory.new) }
    ensures outside { memory.new.inside ≡ None }
    ensures reads { ReadsFurther (F.view files.old).reads (F.view files.new).reads filling.now.stretch.name.now
        filling.now.stretch.limit (GoesBy portion.old.ended (filling.now.stretch.at + length portion.old.bytes))
        (λ next. IfOk result (λ r. GoesBy r.ended (filling.now.stretch.at + r.chunk.count) next)) }
    ensures tells { TellsLoad ByAny filling.now.stretch.limit (F.view files.old) (F.view files.new)
        filling.now.stretch.name.now (result_err result) }
{
    let room = Room::Given(filling.arena);
    let reached = match put_stretch(rt, files, &filling.stretch, portion, memory, room) {
        Ok(reached) => reached,
        Err(fault) => return Err(fault),
    };
    if let Err(fault) = check_records(reached.count, filling.query.record_size()) {
        return Err(fault);
    }
    let chunk = Chunk {
        number: filling.number,
        arena: filling.arena,
        count: reached.count,
        note: memory.note(),
    };
    Ok(Made {
        chunk,
        ended: reached.ended,
    })
}
