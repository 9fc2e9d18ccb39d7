//! Accesses that a close cuts off at each call.
ghost use Rattle.std.specs.Prelude.{◌≡◌, None, length};
ghost use Rattle.fm_segment.specs.Access.{IsKnown};

mod closer;
mod scene;

use crate::tests::compared::same;
use crate::tests::cut_off::closer::Walk;
use crate::tests::cut_off::scene::{LONGS, ended, made, scene};
use crate::tests::handles::handle;
use crate::tests::segment_calls::{Call, calls};
use crate::tests::segments::layout_of;
use fm_base::{Memory, Refusal};
use fm_close::Visit;
use fm_handle::VarHandle;
use fm_lanes::{Order, Value, ValueKind};
use fm_layout::Layout;
use fm_segment::Segment;
use std::alloc::AllocGlobal;
use std::process::Abort;
use std::sync::Wait;

/// What an access is made over.
#[derive(Clone, Copy)]
struct Cut {
    source: Segment,
    target: Segment,
}

#[derive(Clone, Copy)]
enum Access {
    /// The source is copied to the target.
    Copy,
    /// The source is filled.
    Fill,
    /// The source is compared with its own bytes.
    Compare,
    /// An int is read that lies in two words: it has the bytes 0, 0 of the source's first long and 2, 0 of the second.
    Read,
    /// 5 is added to the source's lower int.
    Add,
    /// 9 is put into it where it is 1.
    SetIf,
}

/// A handle of an int at a segment's start.
fn int<R: Abort + AllocGlobal>(rt: &R) -> VarHandle
    ensures closed { length result.dims ≡ 0 }
    ensures int { result.value.kind ≡ ValueKind.Int }
{
    let layout = Layout::value(ValueKind::Int);
    let int = handle(rt, rt.alloc(), &layout, ".");
    same(rt, int.resolved().dims().len(), 0);
    same(rt, int.resolved().value().kind, ValueKind::Int);
    int
}

impl Access {
    /// What was found, or 0 where there is nothing to answer.
    fn make<R: Abort + AllocGlobal + Wait, M: Memory>(
        self,
        rt: &R,
        m: &mut M,
        cut: &Cut,
    ) -> Result<Value, Refusal>
        requires outside { (M.view m.old).inside ≡ None }
        requires source { IsKnown (M.view m.old) cut.now.source }
        requires target { IsKnown (M.view m.old) cut.now.target }
        ensures outside { (M.view m.new).inside ≡ None }
        ensures target { IsKnown (M.view m.new) cut.now.target }
    {
        let (one, nine) = (Value::Int(1), Value::Int(9));
        match self {
            Access::Copy => {
                let copied = cut.target.copy_from(rt, m, &cut.source);
                copied.and(Ok(DONE))
            }
            Access::Fill => cut.source.fill(rt, m, 255).and(Ok(DONE)),
            Access::Compare => {
                let differs = cut.source.mismatch(m, &cut.source)?;
                Ok(Value::Long(differs))
            }
            Access::Read => {
                let across = layout_of(rt, one, Order::Little, 1);
                cut.source.get(m, &across, 6)
            }
            Access::Add => int(rt).get_and_add(rt, m, &cut.source, 0, &[], Value::Int(5)),
            Access::SetIf => {
                let is_set = int(rt).compare_and_set(rt, m, &cut.source, 0, &[], one, nine)?;
                Ok(Value::Boolean(is_set))
            }
        }
    }
}

/// What an access answers that finds nothing.
const DONE: Value = Value::Boolean(true);

/// Makes the access while the source's arena is closed at the call `at`. It is answered so, the closer walks so, and the
/// target has these longs then.
fn cut_off<R: Abort + AllocGlobal + Wait>(
    rt: &R,
    access: Access,
    at: u64,
    answer: Result<Value, Refusal>,
    walk: Walk,
    numbers: [i64; 3],
) {
    let (pool, first) = made(rt);
    let (mut braided, source, target) = scene(rt, &pool, first, at);
    let cut = Cut { source, target };
    let found = access.make(rt, &mut braided, &cut);
    same(rt, (at, found), (at, answer));
    let mut ours = ended(rt, braided, &target, walk);
    let [first, second, third] = numbers;
    let longs = [
        (Call::Get(LONGS, 0), Ok(first)),
        (Call::Get(LONGS, 8), Ok(second)),
        (Call::Get(LONGS, 16), Ok(third)),
    ];
    calls(rt, &mut ours, &target, &longs);
}

/// A piece of the copy is six calls: a visit to read a word, and one to write it.
#[test]
fn a_copy_is_cut_off_at_each_call(rt: HostRuntime) {
    let closed = Err(Refusal::Closed);
    for (from, to, last, answer, numbers) in [
        (0, 0, Visit::Ended, closed, [0, 0, 0]),
        (1, 2, Visit::Inside(1), closed, [1, 0, 0]),
        (3, 6, Visit::Ended, closed, [1, 0, 0]),
        (7, 8, Visit::Inside(1), closed, [1, 2, 0]),
        (9, 12, Visit::Ended, closed, [1, 2, 0]),
        (13, 14, Visit::Inside(1), Ok(DONE), [1, 2, 3]),
        (15, 17, Visit::Ended, Ok(DONE), [1, 2, 3]),
    ] {
        let walk = Walk::to(last, [1, 2, 3]);
        for at in from..to + 1 {
            cut_off(&rt, Access::Copy, at, answer, walk, numbers);
        }
    }
}

/// A piece of a fill is three calls, and what it wrote before the close stands while the closer waits.
#[test]
fn a_fill_is_cut_off_at_each_call(rt: HostRuntime) {
    let (closed, full) = (Err(Refusal::Closed), u64::MAX);
    for (at, last, answer, words) in [
        (0, Visit::Ended, closed, [1, 2, 3]),
        (1, Visit::Inside(1), closed, [1, 2, 3]),
        (2, Visit::Inside(1), closed, [full, 2, 3]),
        (3, Visit::Ended, closed, [full, 2, 3]),
        (4, Visit::Inside(1), closed, [full, 2, 3]),
        (5, Visit::Inside(1), closed, [full, full, 3]),
        (6, Visit::Ended, closed, [full, full, 3]),
        (7, Visit::Inside(1), Ok(DONE), [full, full, 3]),
        (8, Visit::Inside(1), Ok(DONE), [full, full, full]),
    ] {
        let walk = Walk::to(last, words);
        cut_off(&rt, Access::Fill, at, answer, walk, [0, 0, 0]);
    }
}

/// A piece of a comparison is two visits of three calls.
#[test]
fn a_comparison_is_cut_off_at_each_call(rt: HostRuntime) {
    for at in 0..18 {
        let last = if at % 3 == 0 {
            Visit::Ended
        } else {
            Visit::Inside(1)
        };
        let answer = if at > 15 {
            Ok(Value::Long(-1))
        } else {
            Err(Refusal::Closed)
        };
        let walk = Walk::to(last, [1, 2, 3]);
        cut_off(&rt, Access::Compare, at, answer, walk, [0, 0, 0]);
    }
}

/// An int across words is two visits of three calls. An update of a narrow value enters, loads, exchanges and leaves:
/// before its last call it stands.
#[test]
fn a_read_and_updates_are_cut_off_at_each_call(rt: HostRuntime) {
    let closed = Err(Refusal::Closed);
    let read = Ok(Value::Int(2 << 16));
    let added = Ok(Value::Int(1));
    let set = Ok(Value::Boolean(true));
    for (access, at, last, answer, number) in [
        (Access::Read, 0, Visit::Ended, closed, 1),
        (Access::Read, 1, Visit::Inside(1), closed, 1),
        (Access::Read, 2, Visit::Inside(1), closed, 1),
        (Access::Read, 3, Visit::Ended, closed, 1),
        (Access::Read, 4, Visit::Inside(1), read, 1),
        (Access::Read, 5, Visit::Inside(1), read, 1),
        (Access::Add, 0, Visit::Ended, closed, 1),
        (Access::Add, 1, Visit::Inside(1), added, 1),
        (Access::Add, 2, Visit::Inside(1), added, 1),
        (Access::Add, 3, Visit::Inside(1), added, 6),
        (Access::SetIf, 0, Visit::Ended, closed, 1),
        (Access::SetIf, 1, Visit::Inside(1), set, 1),
        (Access::SetIf, 2, Visit::Inside(1), set, 1),
        (Access::SetIf, 3, Visit::Inside(1), set, 9),
    ] {
        let walk = Walk::to(last, [number, 2, 3]);
        cut_off(&rt, access, at, answer, walk, [0, 0, 0]);
    }
}
