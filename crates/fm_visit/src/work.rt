ghost use Rattle.std.specs.Prelude.{◌≡◌, IfErr};
ghost use Rattle.fm_base.specs.Visits.{Acts};
ghost use Rattle.fm_segment.specs.Learnt.{CanUse};
ghost use Rattle.fm_segment.specs.Region.{Region};
ghost use Rattle.fm_visit.specs.Learnt.{IsIn};
ghost use Rattle.fm_visit.specs.Within.{Acted, AfterWithin};

use fm_base::{Memory, OrRefused};
use fm_segment::Segment;

/// What is done in one visit.
pub trait Work {
    /// The segment it works on.
    ghost region: { Self → Region };

    /// The acts that lead from the one to the other.
    ghost does: { Self → Self → Acts → Type 0 };

    /// The segment it works on.
    fn segment(&self) -> Segment
        ensures { result ≡ region self.now };

    /// Does it, inside the segment's arena.
    fn act<M: Memory>(&mut self, m: &mut M)
        requires { IsIn (M.view m.old) (region self.old).arena (region self.old) }
        ensures { Acted (M.view m.old) (M.view m.new) (does self.old self.new) };
}

/// Does the work in one visit: Enter, its acts, Leave.
///
/// Refused, in this order: `WrongThread`, `Closed`. Then nothing is done.
pub fn within<M: Memory, W: Work>(m: &mut M, work: &mut W) -> OrRefused<()>
    requires { CanUse (M.view m.old) (W.region work.old) }
    ensures did { AfterWithin (M.view m.old) (M.view m.new)
        (W.region work.old).arena (W.does work.old work.new) result }
    ensures same { IfErr result (λ _. work.new ≡ work.old) }
{
    m.enter(work.segment().arena())?;
    work.act(m);
    m.leave();
    Ok(())
}
