ghost use Rattle.std.specs.Prelude.{◌≡◌, ◌+◌, IfErr, IfOk};
ghost use Rattle.std.specs.Result.{result_err};
ghost use Rattle.fm_records.specs.Joined.{CanJoin};
ghost use Rattle.fm_top_load.specs.Reading.{GoesBy, ReadsFurther};
ghost use Rattle.fm_top_load.specs.Whole.{ByReads, TellsLoad};
ghost use Rattle.fm_top_stream.specs.Ahead.{IsFollowed};
ghost use Rattle.fm_top_stream.specs.Gone.{CanTakeChunk, GoesByChunk, HasJoined};

use crate::ahead::Ahead;
use crate::answering::{answer_chunk, read_next};
use crate::closing::close_chunk;
use crate::crew::Crew;
use crate::placed::Placed;
use crate::under_way::UnderWay;
use fm_io::{Files, Gate};
use fm_records::Answer;
use fm_rule::Pass;
use fm_segment::Segment;
use fm_top_load::{LoadFault, Portion, Stretch};
use std::sync::Wait;
use std::thread::Threads;

/// Has a chunk answered over by a crew, while the next one, from the place of the stretch on, is put into an arena of its
/// own; then closes the chunk's arena. Gives the next chunk, if the file has one.
pub(crate) fn take_chunk<R: Threads + Wait + Sync, F: Files, G: Gate>(
    rt: &R,
    files: &mut F,
    stretch: &Stretch<'_>,
    crew: &Crew<'_, G>,
    going: UnderWay,
    standing: Placed,
) -> Result<(UnderWay, Option<Placed>), LoadFault>
    requires { CanTakeChunk stretch.now (F.view files.old).holds crew.now.threads crew.now.q.now crew.now.pool.now
        going standing }
    ensures goes { IfOk result
        (λ r. GoesByChunk stretch.now (F.view files.old).holds crew.now.q.now crew.now.pool.now r.0 r.1) }
    ensures reads { ReadsFurther (F.view files.old).reads (F.view files.new).reads stretch.now.name.now
        stretch.now.limit (GoesBy standing.chunk.ended stretch.now.at)
        (λ next. IfOk result (λ r. IsFollowed stretch.now.at r.1 next)) }
    ensures tells { TellsLoad ByReads stretch.now.limit (F.view files.old) (F.view files.new) stretch.now.name.now
        (result_err result) }
{
    let UnderWay {
        pass,
        answer,
        mut portion,
    } = going;
    if let Err(fault) = read_next(files, stretch, &mut portion, standing.chunk.ended) {
        return Err(fault);
    }
    let s = Segment::of(standing.arena, 0, standing.chunk.count);
    let ahead = match answer_chunk(rt, files, stretch, crew, pass, &s, portion) {
        Ok(ahead) => ahead,
        Err(fault) => return Err(fault),
    };
    let Ahead {
        mut pass,
        answer: found,
        portion,
        next,
    } = ahead;
    close_chunk(rt, crew.pool, &mut pass, standing.arena);
    match join_answers(pass, answer, found, portion) {
        Ok(going) => Ok((going, next)),
        Err(fault) => Err(fault),
    }
}

/// The answer over one chunk more. Refused: `Memory`.
fn join_answers(
    pass: Pass,
    mut answer: Answer,
    found: Answer,
    portion: Portion,
) -> Result<UnderWay, LoadFault>
    requires { CanJoin answer found }
    ensures joined { IfOk result (HasJoined pass answer found) }
    ensures memory { IfErr result (λ fault. fault ≡ LoadFault.Memory) }
{
    match answer.join(found) {
        Ok(()) => Ok(UnderWay {
            pass,
            answer,
            portion,
        }),
        Err(_) => Err(LoadFault::Memory),
    }
}
