ghost use Rattle.std.specs.Prelude.{◌≡◌, ℕ, ◌*◌, ◌+◌, ◌<◌, ◌≤◌, max, length, slice_set, All, IfOk};
ghost use Rattle.std.specs.List.{fold};
ghost use Rattle.convoy_scenario.specs.Scenario.{message_at};
ghost use Rattle.convoy_packets.specs.Order.{place};
ghost use Rattle.convoy_sure.specs.Windows.{entry_at, issued_since, raised, with_arrival, with_issue};

use super::messages::destinations;
use super::windows::{LAST_ARRIVAL, Windows, entry_at};
use convoy_scenario::{GREATEST_UNTIL, MOST_GROUPS, MOST_MULTICASTS, Scenario};
use std::alloc::{AllocError, Global};

/// Raises the entry for a message at a group to a number, if it is less.
#[tactic(auto, using(std::proofs::lemmas::List::set_past, crate::proofs::Cut::all_raised))]
pub(crate) fn raise_entry(entries: &mut [u32], message: usize, group: usize, least: u32)
    requires message { message < MOST_MULTICASTS }
    requires group { group < MOST_GROUPS }
    ensures value { entries.new ≡ raised entries.old message group least }
    ensures limit { (most : ℕ) → least ≤ most → All (λ entry. entry ≤ most) entries.old
        → All (λ entry. entry ≤ most) entries.new }
{
    let entry = entry_at(entries, message, group);
    let place = message * MOST_GROUPS + group;
    if place < entries.len() {
        entries[place] = least.max(entry);
    }
}

/// Raises the entries for a message at each of its destinations to that tick and the delay to there
/// that stands in a row of the delays, if they are less.
fn raise_row(
    entries: &mut [u32],
    scenario: &Scenario,
    message: usize,
    tick: u32,
    delays: &[u32],
    row: usize,
)
    requires message { message < length scenario.now.multicasts }
    requires tick { tick ≤ LAST_ARRIVAL }
    requires delays { All (λ delay. delay ≤ u16.MAX) delays.now }
    requires row { row < MOST_MULTICASTS * MOST_GROUPS }
    ensures value { entries.new ≡ fold
        (λ raising to. raised raising message to (tick + entry_at delays.now row to)) entries.old
        (message_at scenario.now message).destinations }
    ensures limit { (last : ℕ) → tick + u16.MAX ≤ last → All (λ entry. entry ≤ last) entries.old
        → All (λ entry. entry ≤ last) entries.new }
{
    for to in destinations(scenario, message) {
        let delay = entry_at(delays, row, *to);
        raise_entry(entries, message, *to, tick + delay);
    }
}

impl Windows {
    /// The first tick at which a message can be issued where it arrives at a group at that tick or
    /// later: the greatest delay to there before that.
    fn issued_since(&self, message: usize, group: usize, tick: u32) -> u32
        requires message { message < MOST_MULTICASTS }
        requires group { group < MOST_GROUPS }
        ensures value { result ≡ issued_since self.now message group tick }
        ensures limit { result ≤ GREATEST_UNTIL }
    {
        tick.saturating_sub(self.greatest_multicast(message, group))
            .min(GREATEST_UNTIL)
    }

    /// Raises least arrivals to what they are where a message arrives at a group at that tick or later:
    /// it arrives at each group no earlier than after the least delay from its issue, and at that group
    /// no earlier than then.
    fn raise_arrivals(
        &self,
        arrivals: &mut [u32],
        scenario: &Scenario,
        message: usize,
        group: usize,
        tick: u32,
    )
        requires message { message < length scenario.now.multicasts }
        requires known { message < MOST_MULTICASTS }
        requires group { group < MOST_GROUPS }
        requires tick { tick ≤ LAST_ARRIVAL }
        requires limit { All (λ entry. entry ≤ LAST_ARRIVAL) arrivals.old }
        ensures value { arrivals.new ≡ raised (fold (with_issue self.now message group tick)
            arrivals.old (message_at scenario.now message).destinations) message group tick }
        ensures limit { All (λ entry. entry ≤ LAST_ARRIVAL) arrivals.new }
    {
        let issued = self.issued_since(message, group, tick);
        raise_row(
            arrivals,
            scenario,
            message,
            issued,
            &self.multicasts.least,
            message,
        );
        raise_entry(arrivals, message, group, tick);
    }

    /// The windows cut: a message arrives at a group, one of its destinations, at that tick or later
    /// (docs/LEADS.md, "Cuts"). The error is that memory ran out.
    pub fn with_arrival(
        &self,
        alloc: Global,
        scenario: &Scenario,
        message: usize,
        group: usize,
        tick: u32,
    ) -> Result<Windows, AllocError>
        requires known { message < MOST_MULTICASTS }
        requires message { message < length scenario.now.multicasts }
        requires group { group < MOST_GROUPS }
        requires tick { tick ≤ LAST_ARRIVAL }
        ensures { IfOk result
            (λ windows. windows ≡ with_arrival scenario.now self.now message group tick) }
    {
        let mut arrivals = self.arrivals.copy(alloc)?;
        let least = arrivals.least.as_mut_slice();
        self.raise_arrivals(least, scenario, message, group, tick);
        // It is committed at each group no earlier than its stamp of that group may come from there.
        let mut settlings = self.settlings.copy(alloc)?;
        let least = settlings.least.as_mut_slice();
        let row = message * MOST_GROUPS + group;
        raise_row(least, scenario, message, tick, &self.proposals.least, row);
        let multicasts = self.multicasts.copy(alloc)?;
        let proposals = self.proposals.copy(alloc)?;
        Ok(Windows {
            arrivals,
            settlings,
            multicasts,
            proposals,
        })
    }
}
