ghost use Rattle.std.specs.Prelude.{◌≡◌, None};
ghost use Rattle.fm_base.specs.View.{Did};
ghost use Rattle.fm_group_laws.specs.Shares.{DoesShare};
ghost use Rattle.fm_group_crew.specs.Tasks.{CanCountShare};

use fm_base::{Memory, Refusal};
use fm_group::CountTable;

/// Counts the values whose ordinals are from one on, below another, up to one that is refused.
pub(crate) fn count_share<M: Memory>(
    m: &mut M,
    table: &CountTable,
    from: u64,
    to: u64,
) -> Result<(), Refusal>
    requires { CanCountShare (M.view m.old) table.now from to }
    ensures did { Did (M.view m.old) (M.view m.new) (DoesShare (M.view m.old).caller table.now from to result) }
    ensures outside { (M.view m.new).inside ≡ None }
{
    for ordinal in from..to {
        match table.count(m, ordinal) {
            Ok(_) => {}
            Err(refusal) => return Err(refusal),
        }
    }
    Ok(())
}
