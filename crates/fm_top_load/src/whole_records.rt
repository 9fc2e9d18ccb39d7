ghost use Rattle.std.specs.Prelude.{◌≡◌, ◌%◌, ◌<◌, IfErr, IfOk};
ghost use Rattle.fm_top_load.specs.Records.{IsRest};

use crate::load_fault::LoadFault;

/// Whether so many bytes are a whole number of records. Refused: `Ragged`.
pub fn check_records(bytes: u64, record_size: u64) -> Result<(), LoadFault>
    requires { 0 < record_size }
    ensures whole { IfOk result (λ _. bytes % record_size ≡ 0) }
    ensures ragged { IfErr result (IsRest bytes record_size) }
{
    match bytes % record_size {
        0 => Ok(()),
        rest => Err(LoadFault::Ragged(rest)),
    }
}
