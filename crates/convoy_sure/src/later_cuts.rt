//! Windows that are cut for what happens by a tick, and for a commit.

ghost use Rattle.std.specs.Prelude.{◌≡◌, ℕ, ◌*◌, ◌+◌, ◌<◌, ◌≤◌, min, length, slice_set, All, IfOk};
ghost use Rattle.std.specs.List.{fold};
ghost use Rattle.convoy_scenario.specs.Scenario.{message_at};
ghost use Rattle.convoy_packets.specs.Order.{place};
ghost use Rattle.convoy_sure.specs.Windows.{arrivals_before, arrivals_by, entry_at, lowered};
ghost use Rattle.convoy_sure.specs.Windows.{with_arrival_by, with_commit, with_commit_by};

use super::cuts::raise_entry;
use super::messages::destinations;
use super::windows::{LAST_SETTLING, Windows, entry_at};
use convoy_scenario::{MOST_GROUPS, MOST_MULTICASTS, Scenario};
use std::alloc::{AllocError, Global};

/// Lowers the entry for a message at a group to a number, if it is greater.
#[tactic(auto, using(std::proofs::lemmas::List::set_past, crate::proofs::Cut::all_lowered))]
fn lower_entry(entries: &mut [u32], message: usize, group: usize, most: u32)
    requires message { message < MOST_MULTICASTS }
    requires group { group < MOST_GROUPS }
    ensures value { entries.new ≡ lowered entries.old message group most }
    ensures limit { (last : ℕ) → All (λ entry. entry ≤ last) entries.old
        → All (λ entry. entry ≤ last) entries.new }
{
    let entry = entry_at(entries, message, group);
    let place = message * MOST_GROUPS + group;
    if place < entries.len() {
        entries[place] = most.min(entry);
    }
}

/// Lowers the entries for a message at each of its destinations to that tick and the delay to there
/// among the delays, if they are greater.
fn lower_row(entries: &mut [u32], scenario: &Scenario, message: usize, tick: u32, delays: &[u32])
    requires message { message < length scenario.now.multicasts }
    requires tick { tick ≤ LAST_SETTLING }
    requires delays { All (λ delay. delay ≤ u16.MAX) delays.now }
    ensures value { entries.new ≡ fold
        (λ lowering to. lowered lowering message to (tick + entry_at delays.now message to)) entries.old
        (message_at scenario.now message).destinations }
    ensures limit { (last : ℕ) → All (λ entry. entry ≤ last) entries.old
        → All (λ entry. entry ≤ last) entries.new }
{
    for to in destinations(scenario, message) {
        let delay = entry_at(delays, message, *to);
        lower_entry(entries, message, *to, tick + delay);
    }
}

impl Windows {
    /// Lowers greatest arrivals to what they are where a message arrives at a group by that tick: it
    /// was issued no later than the least delay to there before that, and it arrives at each group no
    /// later than after the greatest delay from its issue, and at that group no later than then.
    fn lower_arrivals(
        &self,
        arrivals: &mut [u32],
        scenario: &Scenario,
        message: usize,
        group: usize,
        tick: u32,
    )
        requires message { message < length scenario.now.multicasts }
        requires known { message < MOST_MULTICASTS }
        requires group { group < MOST_GROUPS }
        requires tick { tick ≤ LAST_SETTLING }
        ensures value { arrivals.new
            ≡ arrivals_by scenario.now self.now message group tick arrivals.old }
        ensures limit { (last : ℕ) → All (λ entry. entry ≤ last) arrivals.old
            → All (λ entry. entry ≤ last) arrivals.new }
    {
        let least = entry_at(&self.multicasts.least, message, group);
        let issued = tick.saturating_sub(least);
        lower_row(
            arrivals,
            scenario,
            message,
            issued,
            &self.multicasts.greatest,
        );
        lower_entry(arrivals, message, group, tick);
    }

    /// Lowers greatest arrivals to what they are where a message is committed at a group by that tick:
    /// it arrives at each group in time for its stamp of that group to come from there.
    fn lower_all_arrivals(
        &self,
        arrivals: &mut [u32],
        scenario: &Scenario,
        message: usize,
        group: usize,
        tick: u32,
    )
        requires message { message < length scenario.now.multicasts }
        requires group { group < MOST_GROUPS }
        requires tick { tick ≤ LAST_SETTLING }
        ensures value { arrivals.new ≡ fold (arrivals_before scenario.now self.now message group tick)
            arrivals.old (message_at scenario.now message).destinations }
        ensures limit { (last : ℕ) → All (λ entry. entry ≤ last) arrivals.old
            → All (λ entry. entry ≤ last) arrivals.new }
    {
        for from in destinations(scenario, message) {
            let sent = tick.saturating_sub(self.least_proposal(message, *from, group));
            self.lower_arrivals(arrivals, scenario, message, *from, sent);
        }
    }

    /// The windows cut: a message arrives at a group, one of its destinations, by that tick
    /// (docs/LEADS.md, "Orders"). The error is that memory ran out.
    pub fn with_arrival_by(
        &self,
        alloc: Global,
        scenario: &Scenario,
        message: usize,
        group: usize,
        tick: u32,
    ) -> Result<Windows, AllocError>
        requires known { message < MOST_MULTICASTS }
        requires message { message < length scenario.now.multicasts }
        requires group { group < MOST_GROUPS }
        requires tick { tick ≤ LAST_SETTLING }
        ensures { IfOk result
            (λ windows. windows ≡ with_arrival_by scenario.now self.now message group tick) }
    {
        let mut arrivals = self.arrivals.copy(alloc)?;
        let greatest = arrivals.greatest.as_mut_slice();
        self.lower_arrivals(greatest, scenario, message, group, tick);
        let settlings = self.settlings.copy(alloc)?;
        let multicasts = self.multicasts.copy(alloc)?;
        let proposals = self.proposals.copy(alloc)?;
        Ok(Windows {
            arrivals,
            settlings,
            multicasts,
            proposals,
        })
    }

    /// The windows cut: a message is committed at a group, one of its destinations, at that tick or
    /// later. The error is that memory ran out.
    pub fn with_commit(
        &self,
        alloc: Global,
        message: usize,
        group: usize,
        tick: u32,
    ) -> Result<Windows, AllocError>
        requires message { message < MOST_MULTICASTS }
        requires group { group < MOST_GROUPS }
        requires tick { tick ≤ LAST_SETTLING }
        ensures { IfOk result (λ windows. windows ≡ with_commit self.now message group tick) }
    {
        let arrivals = self.arrivals.copy(alloc)?;
        let mut settlings = self.settlings.copy(alloc)?;
        let least = settlings.least.as_mut_slice();
        raise_entry(least, message, group, tick);
        let multicasts = self.multicasts.copy(alloc)?;
        let proposals = self.proposals.copy(alloc)?;
        Ok(Windows {
            arrivals,
            settlings,
            multicasts,
            proposals,
        })
    }

    /// The windows cut: a message is committed at a group, one of its destinations, by that tick. The
    /// error is that memory ran out.
    pub fn with_commit_by(
        &self,
        alloc: Global,
        scenario: &Scenario,
        message: usize,
        group: usize,
        tick: u32,
    ) -> Result<Windows, AllocError>
        requires known { message < MOST_MULTICASTS }
        requires message { message < length scenario.now.multicasts }
        requires group { group < MOST_GROUPS }
        requires tick { tick ≤ LAST_SETTLING }
        ensures { IfOk result
            (λ windows. windows ≡ with_commit_by scenario.now self.now message group tick) }
    {
        let mut arrivals = self.arrivals.copy(alloc)?;
        let greatest = arrivals.greatest.as_mut_slice();
        self.lower_all_arrivals(greatest, scenario, message, group, tick);
        let mut settlings = self.settlings.copy(alloc)?;
        let greatest = settlings.greatest.as_mut_slice();
        lower_entry(greatest, message, group, tick);
        let multicasts = self.multicasts.copy(alloc)?;
        let proposals = self.proposals.copy(alloc)?;
        Ok(Windows {
            arrivals,
            settlings,
            multicasts,
            proposals,
        })
    }
}
