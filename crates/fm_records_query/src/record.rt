ghost use Rattle.std.specs.Prelude.{MatchResult};
ghost use Rattle.fm_records_query.specs.Records.{IsRecord, IsNoRecord};

use fm_base::Refusal;
use fm_layout::Layout;

/// Whether records of this layout can stand one after the other. Takes no memory.
///
/// Refused, in this order: `NoSize` where a record has no byte; `ElementRagged` where its size isn't a multiple of its
/// alignment.
pub fn check_record(layout: &Layout) -> Result<(), Refusal>
    ensures { MatchResult result (λ _. IsRecord layout.now) (IsNoRecord layout.now) }
{
    if layout.size() == 0 {
        return Err(Refusal::NoSize);
    }
    if layout.size() % layout.alignment() != 0 {
        return Err(Refusal::ElementRagged);
    }
    Ok(())
}
