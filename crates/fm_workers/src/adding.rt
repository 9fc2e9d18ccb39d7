ghost use Rattle.std.specs.Prelude.{◌≡◌, ◌<◌, None};
ghost use Rattle.fm_base.specs.View.{Did};
ghost use Rattle.fm_workers.specs.Adding.{CanAdd, DoesAdd, DoesAddOne};

use crate::counts::Counts;
use fm_base::{Memory, Refusal};
use fm_segment::Segment;

/// Adds what was counted to the counts that all passes share, one visit a count that isn't 0. Refused: `Closed`, where
/// the counts before it are added to.
pub(crate) fn add_counts<M: Memory>(
    m: &mut M,
    shared: &Segment,
    counts: &Counts,
) -> Result<(), Refusal>
    requires { CanAdd (M.view m.old) shared.now }
    ensures did { Did (M.view m.old) (M.view m.new) (DoesAdd (M.view m.old).caller shared.now counts.now result) }
    ensures outside { (M.view m.new).inside ≡ None }
{
    for place in 0..256 {
        match add_at(m, shared, place, counts.at(place)) {
            Ok(()) => {}
            Err(refusal) => return Err(refusal),
        }
    }
    Ok(())
}

/// Adds `n` to the shared count at a place. Refused: `Closed`.
fn add_at<M: Memory>(m: &mut M, shared: &Segment, place: usize, n: u64) -> Result<(), Refusal>
    requires can { CanAdd (M.view m.old) shared.now }
    requires within { place < 256 }
    ensures did { Did (M.view m.old) (M.view m.new) (DoesAddOne (M.view m.old).caller shared.now place n result) }
    ensures outside { (M.view m.new).inside ≡ None }
{
    if n == 0 {
        return Ok(());
    }
    match m.enter(shared.arena()) {
        Ok(()) => {}
        Err(refusal) => return Err(refusal),
    }
    m.add(shared.first() / 8 + place as u64, n);
    m.leave();
    Ok(())
}
