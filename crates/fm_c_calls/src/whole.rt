ghost use Rattle.std.specs.Prelude.{◌<◌, ◌≤◌, length, IfOk, IfErr, MatchResult};
ghost use Rattle.fm_c_calls.specs.Whole.{AreWhole, AreNotWhole, IsNoRecordLayout, IsRecordLayout};

use crate::reading::read_layout;
use fm_base::Refusal;
use fm_layout::Layout;
use fm_records_query::check_record;
use fm_top_load::RECORD_FILE_LIMIT;
use std::alloc::Global;

/// The layout of records whose JSON the bytes are. Refused, in this order: as `layout_from_json` of `fm_ljson`; as
/// `check_record` of `fm_records_query`.
pub fn read_record_layout(alloc: Global, json: &[u8]) -> Result<Layout, Refusal>
    ensures layout { IfOk result (IsRecordLayout json.now) }
    ensures refused { IfErr result (IsNoRecordLayout json.now) }
{
    let layout = read_layout(alloc, json)?;
    match check_record(&layout) {
        Ok(()) => Ok(layout),
        Err(refusal) => Err(refusal),
    }
}

/// Whether these bytes are whole records of this size, and no more than a query takes.
///
/// Refused, in this order: `NoRoom` with 0; `Ragged` with the number of bytes behind the last whole record.
pub fn check_records(records: &[u8], size: u64) -> Result<(), Refusal>
    requires { 0 < size }
    ensures { MatchResult result (λ _. AreWhole records.now size) (AreNotWhole records.now size) }
{
    let length = records.len() as u64;
    if length > RECORD_FILE_LIMIT {
        return Err(Refusal::NoRoom(0));
    }
    let rest = length % size;
    if rest != 0 {
        return Err(Refusal::Ragged(rest));
    }
    Ok(())
}
