ghost use Rattle.std.specs.Prelude.{◌≡◌, ◌*◌, ◌/◌, ◌<◌, ◌≤◌, ◌^◌, IfOk};
ghost use Rattle.fm_group_crew.specs.Dealt.{bounds, dealt};

use crate::share::CountShare;
use std::alloc::{AllocError, Global};

/// So many shares of all values, numbered from 1, which differ by at most one value.
pub(crate) fn deal(alloc: Global, len: u64, threads: u32) -> Result<Vec<CountShare>, AllocError>
    requires some { 0 < threads }
    requires fits { len * threads < 2 ^ 64 }
    ensures { IfOk result (λ shares. bounds shares.items ≡ dealt len threads) }
{
    let mut shares = Vec::with_capacity(alloc, threads as usize)?;
    for k in 0..threads {
        shares.push_reserved(CountShare {
            number: k + 1,
            from: start_of(len, threads, k),
            to: start_of(len, threads, k + 1),
            end: Ok(()),
        });
    }
    Ok(shares)
}

/// Where the k-th share begins.
fn start_of(len: u64, threads: u32, k: u32) -> u64
    requires some { 0 < threads }
    requires fits { len * threads < 2 ^ 64 }
    requires within { k ≤ threads }
    ensures { result ≡ len * k / threads }
{
    len * u64::from(k) / u64::from(threads)
}
