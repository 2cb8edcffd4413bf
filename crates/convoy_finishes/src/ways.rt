ghost use Rattle.std.specs.Prelude.{◌≡◌, ◌<◌, ◌≤◌, length, All, IfOk, IfSome, IsTrue};
ghost use Rattle.convoy_scenario.specs.Scenario.{message_at};
ghost use Rattle.convoy_finishes.specs.Finishes.{way_at};
ghost use Rattle.convoy_finishes.specs.WhiteBox.{most_between, way_by, white_box_way, white_box_ways};

use convoy_packets::place;
use convoy_scenario::{GREATEST_DELAY, MOST_GROUPS, MOST_MULTICASTS, Scenario, Sender};
use std::alloc::{AllocError, Global};
use std::marker::Model;

/// No way takes longer, in ticks.
pub const LONGEST_WAY: u32 = 2 * GREATEST_DELAY as u32;

/// How long it takes at most, in ticks, from when each message comes to each group until the target's group has the
/// answers that wait for that. Contracts see them in one list, by the place of the message at the group.
#[derive(Drop)]
pub struct Ways {
    entries: Vec<u32>,
}

impl Model for Ways {
    ghost use Rattle.std.specs.Prelude.{ℕ, List, ◌≤◌, All};

    ghost Value = { List ℕ };

    ghost view = { λ w. w.entries.items };

    ghost invariant = { λ w. All (λ way. way ≤ 131070) w.entries.items };
}

impl Ways {
    /// The ways in groups that are replicated as white boxes (docs/PROTOCOL.md, "Replicated groups"): from the leader
    /// of a group to all replicas of each destination of a message, and from these to the target's group. Between
    /// the leader and the replicas of one group a packet takes at most so many ticks as are said by the group's number, none
    /// where nothing is, and of two groups what it takes on their link.
    /// Fails where memory runs out, and else never.
    #[tactic(auto, unfolding(crate::specs::WhiteBox::white_box_ways))]
    pub fn white_box(
        alloc: Global,
        scenario: &Scenario,
        replicas: &[u16],
    ) -> Result<Ways, AllocError>
        ensures { IfOk result (λ ways. ways ≡ white_box_ways scenario.now replicas.now) }
    {
        let count = scenario.message_count() * MOST_GROUPS;
        let mut entries = Vec::with_capacity(alloc, count)?;
        for i in 0..count {
            let way = white_box_way(scenario, replicas, i / MOST_GROUPS, i % MOST_GROUPS);
            entries.push(way)?;
        }
        Ok(Ways { entries })
    }

    /// The ways that are listed, eight for each message; none where one takes longer than [`LONGEST_WAY`].
    pub fn listed(entries: Vec<u32>) -> Option<Ways>
        ensures { IfSome result (λ ways. ways ≡ entries.items) }
    {
        if are_short(&entries) {
            Some(Ways { entries })
        } else {
            None
        }
    }

    /// How long it takes at most from when a message comes to a group until the target's group has the answers that
    /// wait for that, in ticks; 0 where nothing is said.
    pub fn way(&self, message: usize, group: usize) -> u32
        requires message { message < MOST_MULTICASTS }
        requires group { group < MOST_GROUPS }
        ensures value { result ≡ way_at self.now message group }
        ensures fits { result ≤ LONGEST_WAY }
    {
        self.entries
            .get(place(message, group))
            .copied()
            .unwrap_or(0)
    }
}

/// Whether none of them takes longer than a way may.
fn are_short(entries: &[u32]) -> bool
    ensures { IsTrue result → All (λ way. way ≤ LONGEST_WAY) entries.now }
{
    entries.iter().all(|way| *way <= LONGEST_WAY)
}

/// How long it takes at most from when a message comes to a group until all replicas of all its destinations have
/// answered to the target's group.
fn white_box_way(scenario: &Scenario, replicas: &[u16], message: usize, group: usize) -> u32
    requires { message < length scenario.now.multicasts }
    ensures value { result ≡ white_box_way scenario.now replicas.now message group }
    ensures fits { result ≤ LONGEST_WAY }
{
    let mut longest = 0u32;
    for by in scenario.destinations(message) {
        longest = longest.max(way_by(scenario, replicas, group, *by));
    }
    longest
}

/// How long it takes at most from a group to the replicas of the group `by`, and from these to the target's group.
fn way_by(scenario: &Scenario, replicas: &[u16], group: usize, by: usize) -> u32
    ensures value { result ≡ way_by scenario.now replicas.now group by }
    ensures fits { result ≤ LONGEST_WAY }
{
    let there = most_between(scenario, replicas, group, by);
    let back = most_between(scenario, replicas, by, scenario.target_group());
    u32::from(there) + u32::from(back)
}

/// The greatest delay of a packet between replicas of two groups, in ticks.
fn most_between(scenario: &Scenario, replicas: &[u16], from: usize, to: usize) -> u16
    ensures { result ≡ most_between scenario.now replicas.now from to }
{
    if from == to {
        replicas.get(from).copied().unwrap_or(0)
    } else {
        scenario.range_between(Sender::Group(from), to).1
    }
}
