ghost use Rattle.std.specs.Prelude.{◌≡◌, ◌≢◌, true, false, [], IfOk, OnOk, OnErr};
ghost use Rattle.fm_group_lists.specs.Groups.{AreSummed};
ghost use Rattle.fm_group_lists.specs.Climbing.{IsClimbing, Puts, Takes};

use std::alloc::{AllocError, Global};

/// The sums of pairs in the order of their numbers.
pub(crate) fn summed(alloc: Global, sorted: &[(i64, u64)]) -> Result<Vec<(i64, u64)>, AllocError>
    requires { IsClimbing sorted.now }
    ensures summed { IfOk result (λ sums. AreSummed sorted.now sums.items) }
    ensures wants { OnErr result (sorted.now ≢ []) }
{
    let mut sums = Vec::new(alloc);
    for k in 0..sorted.len() {
        let (number, count) = sorted[k];
        put(&mut sums, number, count)?;
    }
    Ok(sums)
}

/// Adds a pair whose number isn't below the last one.
fn put(sums: &mut Vec<(i64, u64)>, number: i64, count: u64) -> Result<(), AllocError>
    ensures { OnOk result (Puts number count sums.old.items sums.new.items) }
{
    let before = take_last(sums, number);
    sums.push((number, before.wrapping_add(count)))?;
    Ok(())
}

/// Takes away the last pair where it is this number's, and answers its count, else 0.
fn take_last(sums: &mut Vec<(i64, u64)>, number: i64) -> u64
    ensures { Takes number sums.old.items sums.new.items result }
{
    let len = sums.len();
    if len == 0 {
        return 0;
    }
    let (last, count) = sums[len - 1];
    if !is_same(last, number) {
        return 0;
    }
    sums.truncate(len - 1);
    count
}

fn is_same(a: i64, b: i64) -> bool
    ensures yes { result ≡ true → a ≡ b }
    ensures no { result ≡ false → a ≢ b }
{
    a == b
}
