ghost use Rattle.std.specs.Prelude.{◌≡◌, ◌≤◌, []};
ghost use Rattle.fm_rule_calls.specs.Told.{view_of_pass};
ghost use Rattle.fm_gate.specs.Learnt.{AllBusy};
ghost use Rattle.fm_top_load.specs.Held.{IsEmpty};
ghost use Rattle.fm_rule_facts.specs.Views.{limit_of};
ghost use Rattle.fm_top_pooled.specs.Besides.{CanOpenBeside, IsBeside};
ghost use Rattle.fm_top_pooled.specs.Stocked.{HasGiven, HasPagesFor, IsLone, IsOpened, IsStocked, bytes_in_pool};

use fm_base::{ArenaId, Kind};
use fm_gate::{allocate, open_arena};
use fm_rule::{Pass, Pool};
use fm_segment::Segment;
use std::sync::Wait;

/// Opens a shared arena, for which there is a slot. It has no page yet.
pub fn open_shared<R: Wait>(rt: &R, pool: &Pool, pass: &mut Pass) -> ArenaId
    requires lone { IsLone pool.now pass.old }
    requires free { ¬ (AllBusy pass.old) }
    ensures { IsOpened pool.now pass.old pass.new result }
{
    match open_arena(rt, pool, pass, Kind::Shared) {
        Ok(arena) => arena,
        // A slot is left.
        Err(_) => unreachable!(),
    }
}

/// Has the arena give its first bytes, for which there are pages.
pub fn give<R: Wait>(rt: &R, pool: &Pool, pass: &mut Pass, arena: ArenaId, size: u64)
    requires lone { IsLone pool.now pass.old }
    requires empty { IsEmpty (view_of_pass pass.old) arena }
    requires room { size ≤ limit_of pool.now.shape }
    requires pages { HasPagesFor pass.old size }
    ensures { HasGiven pool.now pass.old pass.new arena size }
{
    match allocate(rt, pool, pass, arena, size, 8) {
        Ok(_) => {}
        // There is room, and a page for each part of it.
        Err(_) => unreachable!(),
    }
}

/// Opens an arena beside that of the records, which gives just so many bytes. It comes last: what passes write there
/// lies apart from the words that all read.
pub fn open_beside<R: Wait>(rt: &R, pool: &Pool, pass: &mut Pass, s: &Segment, size: u64) -> Segment
    requires stocked { IsStocked pool.now pass.old s.now }
    requires can { CanOpenBeside pool.now pass.old s.now.arena size }
    ensures stocked { IsStocked pool.now pass.new s.now }
    ensures bytes { bytes_in_pool pass.new s.now ≡ bytes_in_pool pass.old s.now }
    ensures beside { IsBeside pass.new s.now result size }
    ensures none_gathered { pass.new.gathered ≡ [] }
{
    let arena = open_shared(rt, pool, pass);
    give(rt, pool, pass, arena, size);
    Segment::of(arena, 0, size)
}
