ghost use Rattle.std.specs.Prelude.{◌≡◌};
ghost use Rattle.fm_segment.specs.Learnt.{CanUse};

use crate::tests::calls::{fresh, same};
use fm_base::{Memory, OrRefused, Refusal};
use fm_mono::Mono;
use fm_segment::Segment;
use fm_visit::{Work, get_word, within};
use std::process::Abort;
use std::sync::Wait;

/// A word of a segment, and what was found.
#[derive(Drop)]
struct Word {
    segment: Segment,
    offset: u64,
    found: Result<u64, Refusal>,
}

impl Work for Word {
    ghost use Rattle.fm_visit.specs.Acts.{ActsAt, GetsWord};
    ghost use Rattle.fm_visit.specs.Learnt.{place_of_words};

    ghost region = { λ w. w.segment };

    ghost does = { λ old new acts. ActsAt (place_of_words old.offset 1 old.segment) (GetsWord old.segment.arena) new.found acts };

    fn segment(&self) -> Segment {
        self.segment
    }

    fn act<M: Memory>(&mut self, m: &mut M) {
        self.found = get_word(m, &self.segment, self.offset);
    }
}

/// Stops where the word that is found within a visit isn't this one.
fn finds<R: Abort, M: Memory>(
    rt: &R,
    m: &mut M,
    s: &Segment,
    offset: u64,
    answer: OrRefused<Result<u64, Refusal>>,
)
    requires { CanUse (M.view m.old) s.now }
    ensures { CanUse (M.view m.new) s.now }
{
    let mut word = Word {
        segment: *s,
        offset,
        found: Err(Refusal::NoZero),
    };
    let done = within(m, &mut word);
    same(rt, done.map(|_| word.found), answer);
}

#[test]
fn a_work_is_one_visit(rt: HostRuntime) {
    let mut m = Mono::make(rt.alloc(), 64);
    let s = fresh(&rt, &mut m);
    finds(&rt, &mut m, &s, 4, Ok(Ok(0)));
    finds(&rt, &mut m, &s, 5, Ok(Err(Refusal::Misaligned)));
    same(&rt, m.close(&rt, s.arena()), Ok(()));
    finds(&rt, &mut m, &s, 4, Err(Refusal::Closed));
}
