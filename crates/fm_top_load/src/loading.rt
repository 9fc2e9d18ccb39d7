ghost use Rattle.std.specs.Prelude.{IfOk, IfErr};
ghost use Rattle.std.specs.Result.{result_err};
ghost use Rattle.fm_top_load.specs.Held.{HasRoom};
ghost use Rattle.fm_top_load.specs.Loading.{HasBegun, HasLoaded, Stops};
ghost use Rattle.fm_top_load.specs.Reading.{ReadsSome};
ghost use Rattle.fm_top_load.specs.Whole.{TellsLoad};

use crate::held::RECORD_FILE_LIMIT;
use crate::load_fault::LoadFault;
use crate::portion::Portion;
use crate::putting::put_stretch;
use crate::room::Room;
use crate::stretch::Stretch;
use fm_base::{ArenaId, Memory};
use fm_io::Files;
use fm_segment::Segment;
use std::alloc::Global;
use std::sync::Wait;

/// Reads a whole record file into an arena of any memory whose caller is by itself: the segment's bytes are the file's.
///
/// The arena has given nothing yet, and then gives the segment. After a fault it is held still, and what was read
/// before stands in it.
pub fn load_into<R: Wait, F: Files, M: Memory>(
    rt: &R,
    alloc: Global,
    files: &mut F,
    name: &str,
    m: &mut M,
    arena: ArenaId,
) -> Result<Segment, LoadFault>
    requires { HasRoom RECORD_FILE_LIMIT (M.view m.old) arena }
    ensures loaded { IfOk result
        (HasLoaded (F.view files.old).holds name.now (M.view m.old) (M.view m.new) arena) }
    ensures left { IfErr result (λ _. HasBegun (M.view m.old) (M.view m.new) arena) }
    // It reads on where the bytes of its last read end, in portions, and up to the first byte past the limit at most.
    ensures reads { ReadsSome (F.view files.old).reads (F.view files.new).reads name.now
        RECORD_FILE_LIMIT }
    ensures tells { TellsLoad (Stops M.nature (M.view m.old) (M.view m.new)) RECORD_FILE_LIMIT
        (F.view files.old) (F.view files.new) name.now (result_err result) }
{
    let Ok(mut portion) = Portion::none(alloc) else {
        return Err(LoadFault::Memory);
    };
    let stretch = Stretch::whole(name, RECORD_FILE_LIMIT);
    if let Err(fault) = portion.read(files, &stretch) {
        return Err(fault);
    }
    match put_stretch(rt, files, &stretch, &mut portion, m, Room::Growing(arena)) {
        Ok(reached) => Ok(Segment::of(arena, 0, reached.count)),
        Err(fault) => Err(fault),
    }
}
