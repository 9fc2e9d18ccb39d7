ghost use Rattle.fm_visit.specs.Handles.{CanCall, AfterSetLong, AfterExchangeLong, AfterAddLong};

use fm_base::{Memory, Refusal};
use fm_handle::{Support, VarHandle, long_in, word_of};
use fm_lanes::Order;
use fm_segment::Segment;

/// Puts a long that fills a word, at once, as `VarHandle::set_long` does. It waits for nobody. The caller is inside the
/// segment's arena.
///
/// Refused, in this order: `Unsupported` where the value is no long or its alignment is below 8, `IndexOut`,
/// `ReadOnly`, `Bounds`, `Misaligned`. A refused call changes nothing.
pub fn set_long<M: Memory>(
    m: &mut M,
    handle: &VarHandle,
    s: &Segment,
    base: u64,
    indices: &[u64],
    v: i64,
) -> Result<(), Refusal>
    requires { CanCall (M.view m.old) s.now.arena handle.now s.now indices.now }
    ensures { AfterSetLong (M.view m.old) (M.view m.new) handle.now s.now base indices.now v result }
{
    let place = handle.update_place_of(Support::Long, s, base, indices)?;
    let order = handle.resolved().value().order;
    m.store(place / 8, word_of(order, v));
    Ok(())
}

/// Puts `v` where the long is `expected`, in one exchange of whole words, and answers the long found. It waits for
/// nobody. The caller is inside the segment's arena.
///
/// Refused as `set_long` is. A refused call changes nothing.
pub fn compare_and_exchange_long<M: Memory>(
    m: &mut M,
    handle: &VarHandle,
    s: &Segment,
    base: u64,
    indices: &[u64],
    expected: i64,
    v: i64,
) -> Result<i64, Refusal>
    requires { CanCall (M.view m.old) s.now.arena handle.now s.now indices.now }
    ensures { AfterExchangeLong (M.view m.old) (M.view m.new) handle.now s.now base indices.now expected v result }
{
    let place = handle.update_place_of(Support::Long, s, base, indices)?;
    let order = handle.resolved().value().order;
    let found = m.swap_if(place / 8, word_of(order, expected), word_of(order, v));
    Ok(long_in(found, order))
}

/// Adds `delta` to the long, wrapping, in one step, and answers the long found. It waits for nobody. The caller is
/// inside the segment's arena.
///
/// Refused as `set_long` is, with `Unsupported` also where the highest byte comes first. A refused call changes nothing.
pub fn get_and_add_long<M: Memory>(
    m: &mut M,
    handle: &VarHandle,
    s: &Segment,
    base: u64,
    indices: &[u64],
    delta: i64,
) -> Result<i64, Refusal>
    requires { CanCall (M.view m.old) s.now.arena handle.now s.now indices.now }
    ensures { AfterAddLong (M.view m.old) (M.view m.new) handle.now s.now base indices.now delta result }
{
    let place = handle.update_place_of(Support::Word, s, base, indices)?;
    let found = m.add(place / 8, word_of(Order::Little, delta));
    Ok(long_in(found, Order::Little))
}
