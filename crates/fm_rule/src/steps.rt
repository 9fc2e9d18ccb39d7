//! The steps of a pass, one function for each kind. None of them takes memory or waits.
#![tactic(auto, using(crate::proofs::Stepping::step_rules), unfolding(fm_rule_facts::specs::Steps::part))]

ghost use Rattle.std.specs.Prelude.{◌≡◌, ◌≢◌, ◌<◌, [], ◌∷◌, None, Some};
ghost use Rattle.fm_base.specs.Arenas.{MayUse};
ghost use Rattle.fm_base.specs.Calls as machine;
ghost use Rattle.fm_base.specs.Calls.{entry_of};
ghost use Rattle.fm_base.specs.Finds.{Visits as Visiting};
ghost use Rattle.fm_rule_facts.specs.Views.{IsKnown};
ghost use Rattle.fm_rule_facts.specs.Words.{alive_holds, enter_found, inside_found, own_word, shut_found};
ghost use Rattle.fm_rule_facts.specs.Holds.{handles_with};
ghost use Rattle.fm_rule_facts.specs.Closes.{begun, passed_of, visit_found, closes_after, sweeps_after, visit_entries};
ghost use Rattle.fm_rule_facts.specs.Steps.{Stepped, CanReach, HasPlace, none_noted, note_of, acted};
ghost use Rattle.fm_rule_facts.specs.Hands.{nothing, learnt};
ghost use Rattle.fm_rule.specs.Passes.{IsOf};

use crate::acts::{exchange_as, load_as, store_as};
use crate::pass::Pass;
use crate::pool::Pool;
use crate::words::{alive_word, closing_word, is_alive, mark_of};
use fm_base::{ArenaId, Kind};
use fm_rule_facts::{Slot, Step};
use std::marker::Brand;

/// Publishes that the pass is about to use the arena: a closer that looks from now on finds it.
#[inline(always)]
pub fn step_mark(pool: &Pool, pass: &mut Pass, id: ArenaId)
    requires of { IsOf pool.now pass.old }
    requires outside { pass.old.inside ≡ None }
    requires known { IsKnown pass.old id }
    ensures { Stepped pass.old pass.new (record pass.old { mark = Some id }) [] none_noted }
{
    let place = pool.shape.mark_place(pass.caller.number);
    store_as::<Brand>(pool, &mut pass.seat, place, mark_of(id), Step::Marks(id));
}

/// Answers the arena's session word. Where it shows the arena alive, the pass is inside from this step on.
///
/// The mark stands before this step: a closer that shuts the arena after it finds the mark.
#[inline(always)]
pub fn step_check(pool: &Pool, pass: &mut Pass, id: ArenaId) -> u64
    requires of { IsOf pool.now pass.old }
    requires outside { pass.old.inside ≡ None }
    requires marked { pass.old.mark ≡ Some id }
    requires known { IsKnown pass.old id }
    requires may { MayUse id pass.old.caller }
    ensures { Stepped pass.old pass.new
        (record pass.old { inside = inside_found id (alive_holds id result); reads = [] })
        (entry_of pass.old.caller (machine.Enter id) (enter_found (alive_holds id result)) ∷ []) none_noted }
{
    let seat = &mut pass.seat;
    let place = pool.shape.session_place(id.slot);
    let word = load_as::<Brand>(pool, seat, place, Step::Checks(id));
    pass.is_inside = is_alive(id, word);
    // Field by field: a copy of the whole name takes the bytes between its fields along, at each visit.
    pass.current.slot = id.slot;
    pass.current.generation = id.generation;
    pass.current.kind = id.kind;
    pass.current.owner = id.owner;
    pass.current.term = id.term;
    // A part that it read before is known in this visit only once its map word was looked at.
    pass.part.words = 0;
    pass.other.words = 0;
    word
}

/// The word of this index of the arena that the pass is inside.
#[inline(always)]
pub fn step_load(pool: &Pool, pass: &mut Pass, word: u64, place: u64) -> u64
    requires of { IsOf pool.now pass.old }
    requires act { CanReach pass.old word }
    requires place { HasPlace pass.old word place }
    ensures { Stepped pass.old pass.new pass.old
        (acted pass.old.inside pass.old.caller (λ id. machine.Read id word) (machine.Found result)) none_noted }
{
    load_as::<Brand>(pool, &mut pass.seat, place, Step::Loads(word))
}

/// Puts `v` into the word of this index of the arena that the pass is inside.
#[inline(always)]
pub fn step_store(pool: &Pool, pass: &mut Pass, word: u64, place: u64, v: u64)
    requires of { IsOf pool.now pass.old }
    requires act { CanReach pass.old word }
    requires place { HasPlace pass.old word place }
    ensures { Stepped pass.old pass.new pass.old
        (acted pass.old.inside pass.old.caller (λ id. machine.Write id word v) machine.Fine) none_noted }
{
    store_as::<Brand>(pool, &mut pass.seat, place, v, Step::Stores(word, v));
}

/// Publishes nothing any more. A pass that was inside is outside from this step on.
#[inline(always)]
pub fn step_unmark(pool: &Pool, pass: &mut Pass)
    requires of { IsOf pool.now pass.old }
    ensures { Stepped pass.old pass.new (record pass.old { inside = None; mark = None })
        (acted pass.old.inside pass.old.caller machine.Leave machine.Fine) none_noted }
{
    let place = pool.shape.mark_place(pass.caller.number);
    store_as::<Brand>(pool, &mut pass.seat, place, 0, Step::Unmarks);
    pass.is_inside = false;
}

/// Answers the arena's session word. Where it shows the arena alive with no holds, the arena is Closing from this step
/// on: nobody comes into it again. A close is begun, which has visited no mark.
pub fn step_shut(pool: &Pool, pass: &mut Pass, id: ArenaId) -> u64
    requires of { IsOf pool.now pass.old }
    requires known { IsKnown pass.old id }
    requires may { MayUse id pass.old.caller }
    requires by_hand { (id.kind ≢ Kind.Global) × (id.kind ≢ Kind.Automatic) }
    ensures { Stepped pass.old pass.new
        (record pass.old { closes = begun id (shut_found (alive_holds id result)) pass.old.closes })
        (entry_of pass.old.caller (machine.Shut id) (shut_found (alive_holds id result)) ∷ []) none_noted }
{
    let seat = &mut pass.seat;
    let place = pool.shape.session_place(id.slot);
    let (alive, closing) = (alive_word(id, 0), closing_word(id));
    exchange_as::<Brand>(pool, seat, place, alive, closing, Step::Shuts(id))
}

/// Answers the mark of number `k`, the next that the close of the arena visits. Where it doesn't name the arena, the
/// close has visited it; where it was the last one, nobody is under way, and the arena ends at this step: its sweep is begun.
pub fn step_visit(pool: &Pool, pass: &mut Pass, id: ArenaId, k: u32) -> u64
    requires of { IsOf pool.now pass.old }
    requires close { passed_of pass.old.closes id ≡ Some k }
    requires low { k < pass.old.shape.passes }
    ensures own { k ≡ pass.old.caller.number → result ≡ own_word pass.old.mark }
    ensures stepped { Stepped pass.old pass.new
        (record pass.old {
          closes = closes_after id (visit_found pass.old.shape id k result) pass.old.closes;
          sweeps = sweeps_after id (visit_found pass.old.shape id k result) pass.old.sweeps;
        })
        (visit_entries id (visit_found pass.old.shape id k result) pass.old.caller)
        (note_of (Visiting id k) result pass.old) }
{
    let place = pool.shape.mark_place(k);
    load_as::<Brand>(pool, &mut pass.seat, place, Step::Visits(id, k))
}

/// Opens an arena of this kind in the slot that the pass took. The pass has a handle of it, where it is
/// automatic.
pub fn step_open(pool: &Pool, pass: &mut Pass, slot: Slot, kind: Kind) -> ArenaId
    requires of { IsOf pool.now pass.old }
    requires hand { pass.old.hand ≡ learnt slot.slot slot.generation }
    ensures arena { result ≡ record {
      slot = slot.slot;
      generation = slot.generation;
      kind = kind;
      owner = pass.old.caller.number;
      term = pass.old.caller.term;
    } }
    ensures stepped { Stepped pass.old pass.new
        (record pass.old { hand = nothing; handles = handles_with result pass.old.handles })
        (entry_of pass.old.caller (machine.Open result) machine.Fine ∷ []) none_noted }
{
    let a = ArenaId {
        slot: slot.slot,
        generation: slot.generation,
        kind,
        owner: pass.caller.number,
        term: pass.caller.term,
    };
    let place = pool.shape.session_place(a.slot);
    store_as::<Brand>(
        pool,
        &mut pass.seat,
        place,
        alive_word(a, 0),
        Step::Opens(a),
    );
    a
}
