ghost use Rattle.fm_workers_chunks.specs.Serving.{CanServe, Serves};

use crate::answering::answer_and_close;
use crate::chunk::Chunk;
use crate::served::Served;
use fm_arena::Shared;
use fm_records_query::Query;
use fm_segment::Segment;
use std::alloc::Global;
use std::sync::Wait;

/// Meets the chunk's note, answers the query over the chunk, and closes its arena. A refusal stands in what is served.
pub fn serve_chunk<R: Wait>(
    rt: &R,
    alloc: Global,
    memory: &mut Shared,
    q: &Query,
    chunk: Chunk,
) -> Served
    requires { CanServe memory.old q.now chunk }
    ensures { Serves memory.old memory.new q.now chunk result }
{
    let Chunk {
        number,
        arena,
        count,
        note,
    } = chunk;
    memory.meet(note);
    let s = Segment::of(arena, 0, count);
    let answer = answer_and_close(rt, alloc, memory, q, &s);
    Served {
        number,
        arena,
        count,
        answer,
        note: memory.note(),
    }
}
