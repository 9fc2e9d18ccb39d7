ghost use Rattle.std.specs.Prelude.{◌≡◌, ◌+◌, length, None, IfOk};
ghost use Rattle.std.specs.Result.{result_err};
ghost use Rattle.fm_base.specs.Learnt.{CanVisit};
ghost use Rattle.fm_base.specs.View.{Did};
ghost use Rattle.fm_top_load.specs.Filled.{AfterGrow, AfterPutPortion, Fills, HoldsRoom};
ghost use Rattle.fm_top_load.specs.Putting.{CanHold, CanPut, DoesPutStretch};
ghost use Rattle.fm_top_load.specs.Reading.{GoesBy, ReadsFurther};
ghost use Rattle.fm_top_load.specs.Whole.{ByPuts, TellsLoad};

use crate::load_fault::LoadFault;
use crate::portion::Portion;
use crate::reached::Reached;
use crate::room::Room;
use crate::stretch::Stretch;
use fm_base::{ArenaId, Memory, Refusal};
use fm_io::Files;
use fm_segment_access::put_bytes;
use std::sync::Wait;

/// Puts a stretch of a file to an arena's start, portion by portion; the first one was read. It is shorter only where the
/// file ends. Others may be at work meanwhile.
///
/// What was put before a fault stays put.
pub fn put_stretch<R: Wait, F: Files, M: Memory>(
    rt: &R,
    files: &mut F,
    stretch: &Stretch<'_>,
    portion: &mut Portion,
    m: &mut M,
    room: Room,
) -> Result<Reached, LoadFault>
    requires { CanPut stretch.now (F.view files.old).holds portion.old (M.view m.old) room }
    ensures did { Did (M.view m.old) (M.view m.new)
        (DoesPutStretch stretch.now (F.view files.old).holds (M.view m.old).caller room portion.old result) }
    ensures alone { HoldsRoom stretch.now (M.view m.old) room →
        Fills M.nature stretch.now (F.view files.old).holds (M.view m.old) (M.view m.new) room result }
    ensures outside { (M.view m.new).inside ≡ None }
    ensures reads { ReadsFurther (F.view files.old).reads (F.view files.new).reads stretch.now.name.now
        stretch.now.limit (GoesBy portion.old.ended (stretch.now.at + length portion.old.bytes))
        (λ next. IfOk result (λ reached. GoesBy reached.ended (stretch.now.at + reached.count) next)) }
    ensures tells { TellsLoad ByPuts stretch.now.limit (F.view files.old) (F.view files.new) stretch.now.name.now
        (result_err result) }
{
    let mut size = 0u64;
    'portions: loop {
        if let Err(refusal) = put_portion(rt, m, room, size, portion.bytes()) {
            return Err(LoadFault::Refused(refusal));
        }
        size += portion.len();
        if portion.ended() || size == stretch.most {
            return Ok(Reached {
                count: size,
                ended: portion.ended(),
            });
        }
        let rest = Stretch {
            at: stretch.at + size,
            most: stretch.most - size,
            ..*stretch
        };
        if let Err(fault) = portion.read(files, &rest) {
            return Err(fault);
        }
    }
}

/// Puts bytes behind so many others.
fn put_portion<R: Wait, M: Memory>(
    rt: &R,
    m: &mut M,
    room: Room,
    behind: u64,
    bytes: &[u8],
) -> Result<(), Refusal>
    requires { CanHold (M.view m.old) room behind (length bytes.now) }
    ensures { AfterPutPortion M.nature (M.view m.old) (M.view m.new) room behind bytes.now result }
{
    match room {
        Room::Given(arena) => put_bytes(rt, m, arena, behind, bytes),
        Room::Growing(arena) => put_more(rt, m, arena, bytes),
    }
}

/// Has the arena give room for bytes, and puts them there.
fn put_more<R: Wait, M: Memory>(
    rt: &R,
    m: &mut M,
    arena: ArenaId,
    bytes: &[u8],
) -> Result<(), Refusal>
    requires { CanVisit (M.view m.old) arena }
    ensures { AfterGrow M.nature (M.view m.old) (M.view m.new) arena bytes.now result }
{
    let place = match m.allocate(rt, arena, bytes.len() as u64, 8) {
        Ok(place) => place,
        Err(refusal) => return Err(refusal),
    };
    put_bytes(rt, m, arena, place, bytes)
}
