ghost use Rattle.std.specs.Prelude.{◌≡◌, bit_and};
ghost use Rattle.fm_gate.specs.Needs.{CanReach};

use crate::pools::{ONE, given, made};
use fm_base::Refusal;
use fm_gate::{add, enter, leave, patch, swap_if};
use fm_rule::{Pass, Pool};
use std::alloc::Global;
use std::sync::Wait;

/// What is done with a word of an arena that the pass is inside.
#[derive(Clone, Copy)]
pub enum Update {
    /// It is added to.
    Add,
    /// It is swapped for the next one.
    Swap,
    /// A byte of it is patched.
    Patch,
}

/// Updates a word so often, and answers the words found, joined by exclusive or, or the last word where they are swapped.
pub fn updates<R: Wait>(rt: &R, alloc: Global, count: u64, update: Update) -> Result<u64, Refusal> {
    let (pool, mut pass) = made(alloc, ONE)?;
    let arena = given(rt, &pool, &mut pass, 8)?;
    enter(&pool, &mut pass, arena)?;
    Ok(match update {
        Update::Add => adding(pool, pass, count),
        Update::Swap => swapping(pool, pass, count),
        Update::Patch => patching(rt, pool, pass, count),
    })
}

/// The additions alone, of a pool that nothing else has a name for. So are the next two.
#[inline(always)]
fn adding(pool: Pool, mut pass: Pass, count: u64) -> u64
    requires { CanReach pool pass 0 }
{
    let mut joined: u64 = 0;
    for turn in 0..count {
        joined ^= add(&pool, &mut pass, 0, turn);
    }
    leave(&pool, &mut pass);
    joined
}

#[inline(always)]
fn swapping(pool: Pool, mut pass: Pass, count: u64) -> u64
    requires { CanReach pool pass 0 }
{
    let mut word: u64 = 0;
    for _ in 0..count {
        let next = word.wrapping_add(3);
        let found = swap_if(&pool, &mut pass, 0, word, next);
        word = if found == word { next } else { found };
    }
    leave(&pool, &mut pass);
    word
}

#[inline(always)]
fn patching<R: Wait>(rt: &R, pool: Pool, mut pass: Pass, count: u64) -> u64
    requires { CanReach pool pass 0 }
{
    let mut joined: u64 = 0;
    for turn in 0..count {
        joined ^= patch(rt, &pool, &mut pass, 0, 0xff, byte_of(turn));
    }
    leave(&pool, &mut pass);
    joined
}

/// A byte to be put.
fn byte_of(turn: u64) -> u64
    ensures { bit_and result 255 ≡ result }
{
    match turn % 4 {
        0 => 0x42,
        1 => 0x24,
        2 => 0xff,
        _ => 0,
    }
}
