ghost use Rattle.std.specs.Prelude.{◌≡◌, ◌≤◌, ◌<◌, ◌^◌, length, IfOk, ◌+◌};
ghost use Rattle.std.specs.Result.{result_err};
ghost use Rattle.fm_io.specs.Reads.{Ended};
ghost use Rattle.fm_top_load.specs.Reading.{GoesBy, ReadsFurther, ReadsSome, ReadsUpTo};
ghost use Rattle.fm_top_load.specs.Rest.{CanReadRest};
ghost use Rattle.fm_top_load.specs.Whole.{ByReads, IsWhole, TellsLoad};

use crate::load_fault::LoadFault;
use crate::portion::Portion;
use crate::stretch::Stretch;
use fm_io::Files;
use std::alloc::Global;

/// The most bytes of a layout's file.
pub const LAYOUT_FILE_LIMIT: u64 = 1_048_576;

/// Reads a whole file of at most `limit` bytes.
///
/// It reads up to the file's end, or until more bytes than the limit came.
pub fn read_whole<F: Files>(
    alloc: Global,
    files: &mut F,
    name: &str,
    limit: u64,
) -> Result<Vec<u8>, LoadFault>
    requires { limit < 2 ^ 40 }
    ensures whole { IfOk result (λ bytes. IsWhole (F.view files.old).holds name.now bytes.items) }
    ensures short { IfOk result (λ bytes. length bytes.items ≤ limit) }
    // It reads on where the bytes of its last read end, in portions, and up to the first byte past the limit at most.
    ensures reads { ReadsSome (F.view files.old).reads (F.view files.new).reads name.now limit }
    ensures reads_whole { ReadsUpTo (F.view files.old).reads (F.view files.new).reads name.now limit
        (λ next. IfOk result (λ _. next ≡ Ended)) }
    ensures tells { TellsLoad ByReads limit (F.view files.old) (F.view files.new) name.now
        (result_err result) }
{
    let Ok(mut portion) = Portion::none(alloc) else {
        return Err(LoadFault::Memory);
    };
    let stretch = Stretch::whole(name, limit);
    if let Err(fault) = portion.read(files, &stretch) {
        return Err(fault);
    }
    let mut bytes = Vec::new(alloc);
    match read_rest(files, &stretch, &mut portion, &mut bytes) {
        Ok(()) => Ok(bytes),
        Err(fault) => Err(fault),
    }
}

/// Reads the rest of a file behind its first bytes, and behind the portion that was read behind those. The stretch, which
/// begins with the portion, would have room for a longer file.
pub fn read_rest<F: Files>(
    files: &mut F,
    stretch: &Stretch<'_>,
    portion: &mut Portion,
    bytes: &mut Vec<u8>,
) -> Result<(), LoadFault>
    requires { CanReadRest stretch.now (F.view files.old).holds bytes.old.items portion.old }
    ensures whole { IfOk result (λ _. IsWhole (F.view files.old).holds stretch.now.name.now bytes.new.items) }
    ensures short { IfOk result (λ _. length bytes.new.items ≤ stretch.now.limit) }
    ensures reads { ReadsFurther (F.view files.old).reads (F.view files.new).reads stretch.now.name.now
        stretch.now.limit (GoesBy portion.old.ended (stretch.now.at + length portion.old.bytes))
        (λ next. IfOk result (λ _. next ≡ Ended)) }
    ensures tells { TellsLoad ByReads stretch.now.limit (F.view files.old) (F.view files.new) stretch.now.name.now
        (result_err result) }
{
    let mut size = 0u64;
    'portions: loop {
        let Ok(()) = bytes.extend_from_slice(portion.bytes()) else {
            return Err(LoadFault::Memory);
        };
        if portion.ended() {
            return Ok(());
        }
        size += portion.len();
        let rest = Stretch {
            at: stretch.at + size,
            most: stretch.most - size,
            ..*stretch
        };
        if let Err(fault) = portion.read(files, &rest) {
            return Err(fault);
        }
    }
}
