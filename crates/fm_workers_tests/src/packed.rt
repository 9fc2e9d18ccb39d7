ghost use Rattle.std.specs.Prelude.{◌≡◌, None};
ghost use Rattle.fm_layout.specs.Parts.{IsPadding};
ghost use Rattle.fm_segment.specs.Access.{IsKnown};

use crate::layouts::{push_named, sequence, structure};
use crate::records::{answers_rows, longs};
use fm_base::Memory;
use fm_lanes::{Order, ValueKind};
use fm_layout::Layout;
use fm_mono::Mono;
use fm_segment::Segment;
use std::alloc::AllocGlobal;
use std::process::Abort;
use std::sync::Wait;

fn unaligned<R: Abort>(rt: &R, layout: Layout) -> Layout
    requires { ¬ (IsPadding layout) }
{
    layout.with_alignment(1).expect(rt, "an alignment")
}

/// A struct of 19 bytes in which values cross words: byte `a`, int `b`, long `c` whose highest byte comes first, and three
/// shorts `t`, each of alignment 1.
fn packed<R: Abort + AllocGlobal>(rt: &R) -> Layout {
    let mut members = Vec::new(rt.alloc());
    push_named(rt, &mut members, "a", Layout::value(ValueKind::Byte));
    let b = unaligned(rt, Layout::value(ValueKind::Int));
    push_named(rt, &mut members, "b", b);
    let c = unaligned(rt, Layout::value(ValueKind::Long).with_order(Order::Big));
    push_named(rt, &mut members, "c", c);
    let t = sequence(rt, 3, unaligned(rt, Layout::value(ValueKind::Short)));
    push_named(rt, &mut members, "t", t);
    structure(rt, members)
}

/// The words of six such records: byte k of them is (89 k + 37) mod 251, and the bytes behind byte 113 are 0.
const WORDS: [i64; 15] = [
    -7041967844349215195,
    8438829142999193079,
    5543532280003505358,
    2577585193642361765,
    -748648784871565956,
    -3714595871232709549,
    -6680266980158831830,
    8800530007189576193,
    5905233144193888723,
    2939286057832745130,
    -386947920681182591,
    -3352895007042326184,
    -6318566115968448465,
    9162230871379959558,
    14040,
];

/// What queries answer over them, by another program.
const ANSWERS: &str = "\
count,sum(.b),min(.c),max(.b),sum(.b) where .a>=0|count 3|sum(.b) -5053566046|min(.c) -2722265539318515112|\
     max(.b) -1016458829|sum(.b) -5053566046|
list(.t[2:-1]),max(.t[]) where .a>=0|list(.t[2:-1]) -31444 -12683 7358 -17823 2218 20979 30751 -16024 4017|\
     max(.t[]) 30751|
sum(.c),list(.a) where .a>=0 and .c<=9223372036854775807 and .b<0|sum(.c) -2091636071594768297|list(.a) 37 90 24|
count where .c>0 and .a<0|count 1|
list(.t[1]),list(.t[0:2]) where .a=24|list(.t[1]) -16024|list(.t[0:2]) 4017 30751|";

/// A segment of a fresh shared arena with those six records.
fn six_records<R: Abort + Wait, M: Memory>(rt: &R, m: &mut M) -> Segment
    requires { (M.view m.old).inside ≡ None }
    ensures outside { (M.view m.new).inside ≡ None }
    ensures known { IsKnown (M.view m.new) result }
    ensures size { result.size ≡ 120 }
{
    longs(rt, m, &WORDS)
}

#[test]
fn values_that_cross_words_are_found(rt: HostRuntime) {
    let mut m = Mono::make(rt.alloc(), 1024);
    let all = six_records(&rt, &mut m);
    let s = Segment::of(all.arena(), all.first(), 114);
    let layout = packed(&rt);
    answers_rows(&rt, &mut m, &layout, &s, ANSWERS);
}
