ghost use Rattle.std.specs.Prelude.{◌∷◌, []};
ghost use Rattle.fm_records.specs.Few.{HaveRoom};
ghost use Rattle.fm_records.specs.Adds.{AddsRecords};
ghost use Rattle.fm_records.specs.Reads.{CanRead, LiesIn, Reads};

use crate::found::Found;
use crate::querying::{add_items, chooses};
use crate::words::Kept;
use fm_base::{Memory, Refusal};
use fm_records_query::Query;
use fm_segment::Segment;

/// Adds what the items find in the record at a place, where all conditions hold for it.
///
/// Refused: `Closed` at the first value that is read then, or `Memory` at the first number that can't be listed. Then what
/// the values before it come to is added.
#[inline(always)]
pub(crate) fn add_record<M: Memory>(
    m: &mut M,
    s: &Segment,
    place: u64,
    q: &Query,
    kept: &mut Kept,
    found: &mut [Found],
) -> Result<(), Refusal>
    requires can { CanRead (M.view m.old) s.now }
    requires lies { LiesIn s.now place q.now.size }
    requires room { HaveRoom q.now found.old q.now.size }
    ensures { Reads (M.view m.old) (M.view m.new) s.now
        (λ c. AddsRecords c s.now.arena q.now (place ∷ []) found.old found.new) result }
{
    kept.clear();
    match chooses(m, s, place, q.conditions(), kept) {
        Some(true) => add_items(m, s, place, q.items(), kept, found),
        Some(false) => Ok(()),
        None => Err(Refusal::Closed),
    }
}
