ghost use Rattle.std.specs.Prelude.{◌^◌, ◌<◌, ℕ};
ghost use Rattle.fm_base.specs.Calls as machine;
ghost use Rattle.fm_rule_facts.specs.Steps.{HasPlace};
ghost use Rattle.fm_gate.specs.Needs.{CanReach};
ghost use Rattle.fm_gate.specs.Learnt.{AfterAct};

use crate::reaching::reach;
use fm_rule::{Pass, Pool, step_add, step_load, step_store, step_swap_if};

/// The word of this index of the arena that the pass is inside.
#[inline(always)]
pub fn load(pool: &Pool, pass: &mut Pass, word: u64) -> u64
    requires { CanReach pool.now pass.old word }
    ensures { AfterAct pool.now pass.old pass.new (λ id. machine.Read id word) (machine.Found result) }
{
    let place = reach(pool, pass, word);
    step_load(pool, pass, word, place)
}

/// The word of this index of the arena that the pass is inside, and its place, where it stands while the pass is inside.
#[inline(always)]
pub fn load_placed(pool: &Pool, pass: &mut Pass, word: u64) -> (u64, u64)
    requires { CanReach pool.now pass.old word }
    ensures acted { AfterAct pool.now pass.old pass.new (λ id. machine.Read id word) (machine.Found result.0) }
    ensures place { HasPlace pass.new word result.1 }
    ensures small { result.1 < 2 ^ 32 }
{
    let place = reach(pool, pass, word);
    (step_load(pool, pass, word, place), place)
}

/// The word of this index of the arena that the pass is inside, at a place that is known to be its own.
#[inline(always)]
pub fn load_at(pool: &Pool, pass: &mut Pass, word: u64, place: u64) -> u64
    requires reach { CanReach pool.now pass.old word }
    requires place { HasPlace pass.old word place }
    ensures acted { AfterAct pool.now pass.old pass.new (λ id. machine.Read id word) (machine.Found result) }
    ensures stand { (w : ℕ) → (at : ℕ) → HasPlace pass.old w at → HasPlace pass.new w at }
{
    step_load(pool, pass, word, place)
}

/// Puts `v` into the word of this index of the arena that the pass is inside.
#[inline(always)]
pub fn store(pool: &Pool, pass: &mut Pass, word: u64, v: u64)
    requires { CanReach pool.now pass.old word }
    ensures { AfterAct pool.now pass.old pass.new (λ id. machine.Write id word v) machine.Fine }
{
    store_placed(pool, pass, word, v);
}

/// Puts `v` into the word of this index of the arena that the pass is inside, and answers its place, where it stands while
/// the pass is inside.
#[inline(always)]
pub fn store_placed(pool: &Pool, pass: &mut Pass, word: u64, v: u64) -> u64
    requires { CanReach pool.now pass.old word }
    ensures acted { AfterAct pool.now pass.old pass.new (λ id. machine.Write id word v) machine.Fine }
    ensures place { HasPlace pass.new word result }
    ensures small { result < 2 ^ 32 }
{
    let at = reach(pool, pass, word);
    step_store(pool, pass, word, at, v);
    at
}

/// Puts `v` into the word of this index of the arena that the pass is inside, at a place that is known to be its own.
#[inline(always)]
pub fn store_at(pool: &Pool, pass: &mut Pass, word: u64, place: u64, v: u64)
    requires reach { CanReach pool.now pass.old word }
    requires place { HasPlace pass.old word place }
    ensures acted { AfterAct pool.now pass.old pass.new (λ id. machine.Write id word v) machine.Fine }
    ensures stand { (w : ℕ) → (at : ℕ) → HasPlace pass.old w at → HasPlace pass.new w at }
{
    step_store(pool, pass, word, place, v)
}

/// Puts `new` into the word of this index where it is `old`, and answers the word found.
pub fn swap_if(pool: &Pool, pass: &mut Pass, word: u64, old: u64, new: u64) -> u64
    requires { CanReach pool.now pass.old word }
    ensures { AfterAct pool.now pass.old pass.new (λ id. machine.SwapIf id word old new) (machine.Found result) }
{
    let place = reach(pool, pass, word);
    step_swap_if(pool, pass, word, place, old, new)
}

/// Adds `n` to the word of this index, wrapping at 2^64, and answers the word found.
pub fn add(pool: &Pool, pass: &mut Pass, word: u64, n: u64) -> u64
    requires { CanReach pool.now pass.old word }
    ensures { AfterAct pool.now pass.old pass.new (λ id. machine.Add id word n) (machine.Found result) }
{
    let place = reach(pool, pass, word);
    step_add(pool, pass, word, place, n)
}
