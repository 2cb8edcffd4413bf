//! How long messages of a kind take to their commit, and which of those that go to a group may take longest there.

ghost use Rattle.std.specs.Prelude.{◌≡◌, ◌≤◌, ◌*◌, ◌<◌, length};
ghost use Rattle.convoy_ceiling.specs.Ceiling.{longest_after, longest_by, longest_from_arrival, longest_to_commit};
ghost use Rattle.convoy_kinds.specs.Ceilings.{IsSlowest, rival_at};
ghost use Rattle.convoy_kinds.specs.Kinds.{IsKinds, all_kinds};

use super::kinds::Kinds;
use convoy_ceiling::{delays_between, stamp_delays};
use convoy_scenario::Sender;

/// Which messages are committed longest after their arrival at a group.
#[derive(Clone, Copy)]
pub struct Slowest {
    /// The number of the first kind that may be so.
    pub kind: usize,
    /// How many ticks after its arrival a message of the kind may be committed.
    pub after: u32,
}

/// The slowest at a group.
pub fn slowest_at(kinds: &Kinds, group: usize) -> Slowest
    ensures slowest { IsSlowest kinds.now group result }
    ensures lawful { IsKinds kinds.now }
{
    let after = longest_after(kinds, group);
    Slowest {
        kind: rival_at(kinds, group, after),
        after,
    }
}

/// The longest from the arrival of any message at a group to its commit there.
fn longest_after(kinds: &Kinds, group: usize) -> u32
    ensures value { result ≡ longest_after (all_kinds kinds.now) group }
    ensures fits { result ≤ 2 * u16.MAX }
    ensures lawful { IsKinds kinds.now }
{
    let mut longest = 0u32;
    for kind in 0..kinds.kind_count() {
        if kinds.goes_to(kind, group) {
            longest = longest.max(longest_from_arrival(kinds, group, kind));
        }
    }
    longest
}

/// The first kind that goes to a group of which a message may be committed so long after its arrival there; 0 where there is
/// none.
fn rival_at(kinds: &Kinds, group: usize, longest: u32) -> usize
    requires { longest ≡ longest_after (all_kinds kinds.now) group }
    ensures { result ≡ rival_at kinds.now group }
{
    for kind in 0..kinds.kind_count() {
        if kinds.goes_to(kind, group) && longest_from_arrival(kinds, group, kind) == longest {
            return kind;
        }
    }
    0
}

/// The longest from the issue of a message of a kind to its commit at a group.
pub fn longest_to_commit(kinds: &Kinds, kind: usize, group: usize) -> u32
    requires { kind < length kinds.now.kinds }
    ensures value { result ≡ longest_to_commit (all_kinds kinds.now) kind group }
    ensures fits { result ≤ 2 * u16.MAX }
{
    let sender = kinds.sender(kind);
    let mut longest = 0u32;
    for via in kinds.destinations(kind) {
        longest = longest.max(longest_by(kinds, sender, group, *via));
    }
    longest
}

/// The longest from the arrival of a message of a kind at a group to its commit there.
fn longest_from_arrival(kinds: &Kinds, group: usize, kind: usize) -> u32
    requires { kind < length kinds.now.kinds }
    ensures value { result ≡ longest_from_arrival (all_kinds kinds.now) group kind }
    ensures fits { result ≤ 2 * u16.MAX }
{
    let (least, _) = delays_between(kinds.setting(), kinds.sender(kind), group);
    longest_to_commit(kinds, kind, group).saturating_sub(u32::from(least))
}

/// The longest way from a sender to the group `via`, and on to a group.
fn longest_by(kinds: &Kinds, sender: Sender, group: usize, via: usize) -> u32
    ensures value { result ≡ longest_by (all_kinds kinds.now) sender group via }
    ensures fits { result ≤ 2 * u16.MAX }
{
    let (_, first) = delays_between(kinds.setting(), sender, via);
    let (_, second) = stamp_delays(kinds.setting(), via, group);
    u32::from(first) + u32::from(second)
}
