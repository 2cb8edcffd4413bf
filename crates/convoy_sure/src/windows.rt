ghost use Rattle.std.specs.Prelude.{◌≡◌, ℕ, ◌*◌, ◌+◌, ◌≤◌, ◌<◌, All};
ghost use Rattle.convoy_sure.specs.Windows.{entry_at, tables_by};

use super::ends::Ends;
use convoy_scenario::{GREATEST_UNTIL, MOST_GROUPS, MOST_MULTICASTS};
use std::marker::Model;

/// No message arrives anywhere at a later tick.
pub const LAST_ARRIVAL: u32 = GREATEST_UNTIL + 65_535;

/// No message is committed anywhere at a later tick.
pub const LAST_SETTLING: u32 = GREATEST_UNTIL + 131_070;

/// From when to when each message may arrive at each of its destinations and be committed there, and
/// the least and the greatest delay of each of its packets, in ticks (docs/LEADS.md).
#[derive(Drop)]
pub struct Windows {
    pub(crate) arrivals: Ends,
    pub(crate) settlings: Ends,
    pub(crate) multicasts: Ends,
    pub(crate) proposals: Ends,
}

impl Model for Windows {
    ghost use Rattle.convoy_sure.specs.Windows.{Windows, AreWithinLimits};

    ghost Value = { Windows };

    ghost view = { λ w. record {
      least_arrivals = w.arrivals.least.items;
      greatest_arrivals = w.arrivals.greatest.items;
      least_settlings = w.settlings.least.items;
      greatest_settlings = w.settlings.greatest.items;
      least_multicasts = w.multicasts.least.items;
      greatest_multicasts = w.multicasts.greatest.items;
      least_proposals = w.proposals.least.items;
      greatest_proposals = w.proposals.greatest.items;
    } };

    ghost invariant = { λ w. AreWithinLimits (view w) };
}

/// The entry of a row at a group, 0 where there is none. The row is a message, or a message at a group.
pub(crate) fn entry_at(entries: &[u32], row: usize, group: usize) -> u32
    requires row { row < MOST_MULTICASTS * MOST_GROUPS }
    requires group { group < MOST_GROUPS }
    ensures value { result ≡ entry_at entries.now row group }
    ensures fits { (most : ℕ) → All (λ entry. entry ≤ most) entries.now → result ≤ most }
{
    entries.get(row * MOST_GROUPS + group).copied().unwrap_or(0)
}

impl Windows {
    /// The least tick at which a message may arrive at a group, 0 where it does not go there.
    pub fn least_arrival(&self, message: usize, group: usize) -> u32
        requires message { message < MOST_MULTICASTS }
        requires group { group < MOST_GROUPS }
        ensures value { result ≡ (tables_by self.now).times.least_arrival message group }
        ensures fits { result ≤ LAST_ARRIVAL }
    {
        entry_at(&self.arrivals.least, message, group)
    }

    /// The greatest tick at which a message may arrive at a group, 0 where it does not go there.
    pub fn greatest_arrival(&self, message: usize, group: usize) -> u32
        requires message { message < MOST_MULTICASTS }
        requires group { group < MOST_GROUPS }
        ensures value { result ≡ (tables_by self.now).times.greatest_arrival message group }
        ensures fits { result ≤ LAST_ARRIVAL }
    {
        entry_at(&self.arrivals.greatest, message, group)
    }

    /// The least tick at which a message may be committed at a group, 0 where it does not go there.
    pub fn least_settling(&self, message: usize, group: usize) -> u32
        requires message { message < MOST_MULTICASTS }
        requires group { group < MOST_GROUPS }
        ensures value { result ≡ (tables_by self.now).times.least_settling message group }
        ensures fits { result ≤ LAST_SETTLING }
    {
        entry_at(&self.settlings.least, message, group)
    }

    /// The greatest tick at which a message may be committed at a group, 0 where it does not go there.
    pub fn greatest_settling(&self, message: usize, group: usize) -> u32
        requires message { message < MOST_MULTICASTS }
        requires group { group < MOST_GROUPS }
        ensures value { result ≡ (tables_by self.now).times.greatest_settling message group }
        ensures fits { result ≤ LAST_SETTLING }
    {
        entry_at(&self.settlings.greatest, message, group)
    }

    /// The greatest delay, in ticks, of a message on its way to a group, 0 where it does not go there.
    pub fn greatest_multicast(&self, message: usize, group: usize) -> u32
        requires message { message < MOST_MULTICASTS }
        requires group { group < MOST_GROUPS }
        ensures value { result ≡ (tables_by self.now).greatest_multicast message group }
        ensures fits { result ≤ 65535 }
    {
        entry_at(&self.multicasts.greatest, message, group)
    }

    /// The least delay, in ticks, of the proposal of a message from a group to another, 0 where one of
    /// them is no destination.
    pub fn least_proposal(&self, message: usize, from: usize, to: usize) -> u32
        requires message { message < MOST_MULTICASTS }
        requires from { from < MOST_GROUPS }
        requires to { to < MOST_GROUPS }
        ensures value { result ≡ (tables_by self.now).least_proposal message from to }
        ensures fits { result ≤ 65535 }
    {
        entry_at(&self.proposals.least, message * MOST_GROUPS + from, to)
    }

    /// The greatest delay, in ticks, of the proposal of a message from a group to another, 0 where one
    /// of them is no destination.
    pub fn greatest_proposal(&self, message: usize, from: usize, to: usize) -> u32
        requires message { message < MOST_MULTICASTS }
        requires from { from < MOST_GROUPS }
        requires to { to < MOST_GROUPS }
        ensures value { result ≡ (tables_by self.now).greatest_proposal message from to }
        ensures fits { result ≤ 65535 }
    {
        entry_at(&self.proposals.greatest, message * MOST_GROUPS + from, to)
    }
}
