//! Within which time a share of packets came.

ghost use Rattle.std.specs.Prelude.{◌≡◌, ℕ, ◌≤◌, ◌<◌, All, IfOk, IsSorted, length};
ghost use Rattle.std.specs.Ordering.{nat_cmp};
ghost use Rattle.convoy_trace_ranges.specs.Shares.{AreWithin, share_within, shares_of};

use convoy_draft::AllocResult;
use std::alloc::Global;

/// Within which times, in nanoseconds, these shares of packets came.
#[derive(Clone, Copy)]
pub struct Shares {
    /// Half of them.
    pub half: u64,
    /// 90 percent.
    pub most: u64,
    /// 99 percent.
    pub nearly_all: u64,
    /// 99.9 percent.
    pub all_but_few: u64,
}

/// The least of delays in ascending order such that at least so many of a thousand are no greater.
fn share_within(sorted: &[u64], share: u64) -> u64
    requires sorted { IsSorted nat_cmp sorted.now }
    requires some { 1 ≤ length sorted.now }
    requires share { (1 ≤ share) × (share ≤ 1000) }
    ensures value { result ≡ share_within sorted.now share }
    ensures within { (most : ℕ) → All (λ delay. delay ≤ most) sorted.now → result ≤ most }
{
    let rank = (u128::from(share) * sorted.len() as u128).div_ceil(1000) as usize;
    sorted[rank - 1]
}

/// Within which times shares of packets came that took so long.
pub fn shares_of(alloc: Global, delays: &[u64]) -> AllocResult<Shares>
    requires { 1 ≤ length delays.now }
    ensures value { IfOk result (λ shares. shares ≡ shares_of delays.now) }
    ensures within { (most : ℕ) → All (λ delay. delay ≤ most) delays.now
        → IfOk result (λ shares. AreWithin shares most) }
{
    let mut sorted = Vec::from_slice(alloc, delays)?;
    sorted.sort_unstable();
    Ok(Shares {
        half: share_within(&sorted, 500),
        most: share_within(&sorted, 900),
        nearly_all: share_within(&sorted, 990),
        all_but_few: share_within(&sorted, 999),
    })
}
