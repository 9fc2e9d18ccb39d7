ghost use Rattle.std.specs.Prelude.{◌≡◌, ◌+◌, ◌<◌, true, length, IfOk};
ghost use Rattle.std.specs.Result.{result_err};
ghost use Rattle.fm_top_load.specs.Reading.{GoesBy, ReadsFurther};
ghost use Rattle.fm_top_load.specs.Whole.{ByReads, CanRead, IsPortion, TellsLoad};
ghost use Rattle.fm_top_stream.specs.Ahead.{IsFollowed};
ghost use Rattle.fm_top_stream.specs.Gone.{AnswersAhead, CanAnswer, IsUpTo};

use crate::ahead::Ahead;
use crate::asking::{ask, ask_beside};
use crate::crew::Crew;
use crate::giving::give_chunk;
use crate::opening::open_chunk;
use crate::putting::Putting;
use fm_io::{Files, Gate};
use fm_rule::Pass;
use fm_segment::Segment;
use fm_top_load::{LoadFault, Portion, Stretch};
use std::sync::Wait;
use std::thread::Threads;

/// The next portion of the file: nothing, where it has ended.
pub(crate) fn read_next<F: Files>(
    files: &mut F,
    stretch: &Stretch<'_>,
    portion: &mut Portion,
    ended: bool,
) -> Result<(), LoadFault>
    requires can { CanRead stretch.now.limit stretch.now.at }
    requires some { 0 < stretch.now.most }
    requires at { IsUpTo stretch.now (F.view files.old).holds ended }
    ensures took { IfOk result (λ _. IsPortion stretch.now.limit stretch.now.most (F.view files.old).holds
        stretch.now.name.now stretch.now.at portion.new) }
    ensures none { ended ≡ true → IfOk result (λ _. length portion.new.bytes ≡ 0) }
    ensures reads { ReadsFurther (F.view files.old).reads (F.view files.new).reads stretch.now.name.now
        stretch.now.limit (GoesBy ended stretch.now.at)
        (λ next. IfOk result (λ _. GoesBy portion.new.ended (stretch.now.at + length portion.new.bytes) next)) }
    ensures tells { TellsLoad ByReads stretch.now.limit (F.view files.old) (F.view files.new) stretch.now.name.now
        (result_err result) }
{
    if ended {
        portion.end();
        return Ok(());
    }
    portion.read(files, stretch)
}

/// What a crew answers over a chunk. The first portion of the next one was read, and that chunk is put into an arena of
/// its own meanwhile; where it is empty the file has ended.
pub(crate) fn answer_chunk<R: Threads + Wait + Sync, F: Files, G: Gate>(
    rt: &R,
    files: &mut F,
    stretch: &Stretch<'_>,
    crew: &Crew<'_, G>,
    mut pass: Pass,
    s: &Segment,
    portion: Portion,
) -> Result<Ahead, LoadFault>
    requires { CanAnswer stretch.now (F.view files.old).holds crew.now.threads crew.now.q.now crew.now.pool.now pass s.now
        portion }
    ensures answers { IfOk result
        (AnswersAhead stretch.now (F.view files.old).holds crew.now.q.now crew.now.pool.now pass s.now portion) }
    ensures reads { ReadsFurther (F.view files.old).reads (F.view files.new).reads stretch.now.name.now
        stretch.now.limit (GoesBy portion.ended (stretch.now.at + length portion.bytes))
        (λ next. IfOk result (λ r. IsFollowed stretch.now.at r.next next)) }
    ensures tells { TellsLoad ByReads stretch.now.limit (F.view files.old) (F.view files.new) stretch.now.name.now
        (result_err result) }
{
    if portion.len() == 0 {
        return match ask(rt, crew, &mut pass, s) {
            Ok(answer) => Ok(Ahead {
                pass,
                answer,
                portion,
                next: None,
            }),
            Err(_) => Err(LoadFault::Memory),
        };
    }
    let arena = open_chunk(rt, crew.pool, &mut pass);
    give_chunk(rt, crew.pool, &mut pass, arena, stretch.most);
    let putting = Putting {
        stretch: *stretch,
        portion,
        arena,
        put: None,
    };
    ask_beside(rt, files, crew, pass, s, putting)
}
