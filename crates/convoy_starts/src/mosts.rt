ghost use Rattle.std.specs.Prelude.{◌≡◌, ℕ, ◌≤◌, ◌<◌, max, length, slice_index, All};
ghost use Rattle.convoy_starts.specs.Starts.{capped};
ghost use Rattle.convoy_starts.specs.Mosts.{AreFor};

use super::window::capped;
use arrayvec::ArrayVec;
use convoy_scenario::MOST_MULTICASTS;

/// For each of some messages the most that a number can be where that message is barred, that is,
/// committed nowhere before.
pub(crate) type Mosts = ArrayVec<u32, MOST_MULTICASTS>;

/// The same number for each of the bars.
pub(crate) fn level(bars: &[usize], value: u32) -> Mosts
    requires { length bars.now ≤ MOST_MULTICASTS }
    ensures value { AreFor (λ x. value) bars.now result.items }
    ensures small { All (λ most. most ≤ value) result.items }
{
    let mut mosts = ArrayVec::new();
    for _place in 0..bars.len() {
        mosts.push(value);
    }
    mosts
}

/// Raises each number to that at its place in another list, if it is less.
pub(crate) fn raise_all(mosts: &mut [u32], others: &[u32])
    requires { length mosts.old ≡ length others.now }
    ensures { (k : ℕ) → k < length mosts.old
        → slice_index mosts.new k ≡ max (slice_index mosts.old k) (slice_index others.now k) }
{
    for k in 0..mosts.len() {
        mosts[k] = mosts[k].max(others[k]);
    }
}

/// Caps each number by what such a lead leaves room for.
pub(crate) fn cap_all(mosts: &mut [u32], sure: u32, lead: u32)
    requires { sure < u32.MAX }
    ensures { (k : ℕ) → k < length mosts.old
        → slice_index mosts.new k ≡ capped sure lead (slice_index mosts.old k) }
{
    for k in 0..mosts.len() {
        mosts[k] = capped(sure, lead, mosts[k]);
    }
}
