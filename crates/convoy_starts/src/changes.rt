ghost use Rattle.std.specs.Prelude.{◌≡◌, ◌≢◌, ℕ, ◌<◌, ◌≤◌, length, slice_index, slice_index_or, All};
ghost use Rattle.convoy_draft.specs.declared.limits.TheConstants.{MOST_GROUPS, MOST_MULTICASTS};
ghost use Rattle.convoy_sim.specs.Moments.{next_arrival};
ghost use Rattle.convoy_sim.specs.Delivery.{addressed_to};
ghost use Rattle.convoy_stamps.specs.declared.pair.Pair.{Pair};
ghost use Rattle.convoy_sure.specs.Windows.{tables_by};
ghost use Rattle.convoy_starts.specs.Starts.{stamp_for};
ghost use Rattle.convoy_starts.specs.Changes.{first_after, IsCovered, IsNotSkipped, IsSteady, IsUnread};

use super::setting::Setting;
use super::start::Start;
use convoy_scenario::{MOST_GROUPS, MOST_MULTICASTS, Time};
use convoy_sim::next_arrival;
use convoy_stamps::Pair;
use convoy_sure::destinations;

/// A tick, if it is past another one, or else the greatest number.
fn if_past(tick: u32, by: u32) -> u32
    requires { by < u32.MAX }
    ensures past { by < result }
    ensures first { IsNotSkipped by result tick }
{
    if by < tick { tick } else { u32::MAX }
}

/// The first tick by which the arrival of message `q` may follow one of message `z` at that tick.
fn first_after(time: Time, tick: u32, z: usize, q: usize) -> u32
    requires { tick < u32.MAX }
    ensures { result ≡ first_after time tick z q }
{
    if q < z {
        next_arrival(time, tick)
    } else {
        tick
    }
}

/// The first tick past another one by which an arrival at a group may follow a start there for the
/// first time, or a message that arrives no sooner than one that does; else the greatest number.
fn follows_start(time: Time, group: usize, by: u32, start: &Start) -> u32
    requires { by < u32.MAX }
    ensures past { by < result }
    ensures first { start.now.group ≡ group → IsNotSkipped by result (next_arrival time start.now.at) }
    ensures second { start.now.group ≡ group
        → IsNotSkipped by result (next_arrival time (next_arrival time start.now.at)) }
{
    if start.group() != group {
        return u32::MAX;
    }
    let since = next_arrival(time, start.at());
    if by < since {
        return since;
    }
    if_past(next_arrival(time, since), by)
}

/// The first of these ticks of some starts, or else the greatest number.
fn next_start(time: Time, starts: &[Start], group: usize, by: u32) -> u32
    requires { by < u32.MAX }
    ensures past { by < result }
    ensures first { All (λ s. s.group ≡ group
        → IsNotSkipped by result (next_arrival time s.at)) starts.now }
    ensures second { All (λ s. s.group ≡ group
        → IsNotSkipped by result (next_arrival time (next_arrival time s.at))) starts.now }
{
    let mut next = u32::MAX;
    for start in starts {
        next = next.min(follows_start(time, group, by, start));
    }
    next
}

/// The least of some ticks and another one.
pub(crate) fn least(ticks: &[u32], end: u32) -> u32
    ensures within { result ≤ end }
    ensures least { All (λ t. result ≤ t) ticks.now }
    ensures low { (low : ℕ) → low ≤ end → All (λ t. low ≤ t) ticks.now → low ≤ result }
{
    let mut first = end;
    for tick in ticks {
        first = first.min(*tick);
    }
    first
}

impl<'a> Setting<'a> {
    /// The first tick past another one at which a message arrives at a group at the earliest, or else
    /// the greatest number.
    fn next_least_arrival(&self, group: usize, by: u32) -> u32
        requires group { group < MOST_GROUPS }
        requires by { by < u32.MAX }
        ensures past { by < result }
        ensures first { All (λ z. IsNotSkipped by result
            ((tables_by self.now.windows.now).times.least_arrival z group))
            (addressed_to self.now.scenario.now group) }
    {
        let mut next = u32::MAX;
        for z in self.addressed_to(group) {
            next = next.min(if_past(self.windows.least_arrival(*z, group), by));
        }
        next
    }

    /// The first tick past another one by which the arrival of message `q` at a group may follow one of
    /// some message for the first time, or else the greatest number.
    fn next_follower(&self, q: usize, group: usize, by: u32) -> u32
        requires group { group < MOST_GROUPS }
        requires by { by < u32.MAX }
        ensures past { by < result }
        ensures first { All (λ z. IsNotSkipped by result (first_after self.now.scenario.now.time
            ((tables_by self.now.windows.now).times.least_arrival z group) z q))
            (addressed_to self.now.scenario.now group) }
    {
        let mut next = u32::MAX;
        for z in self.addressed_to(group) {
            let first = self.windows.least_arrival(*z, group);
            next = next.min(if_past(first_after(self.time, first, *z, q), by));
        }
        next
    }

    /// The next tick past that one at which another stamp of group `from` may have come for a pair's
    /// commit.
    fn next_change_by(&self, starts: &[Start], tick: u32, pair: Pair, from: usize) -> u32
        requires message { pair.message < MOST_MULTICASTS }
        requires group { pair.group < MOST_GROUPS }
        requires from { from < MOST_GROUPS }
        requires tick { tick < u32.MAX }
        ensures past { tick < result }
        ensures same { 0 < tick → (later x : ℕ) → tick ≤ later → later < result
            → stamp_for self.now.scenario.now (tables_by self.now.windows.now) self.now.sure.now
            starts.now later x pair.message pair.group from
            ≡ stamp_for self.now.scenario.now (tables_by self.now.windows.now) self.now.sure.now
            starts.now tick x pair.message pair.group from }
    {
        let Pair { message, group } = pair;
        if from == group {
            return u32::MAX;
        }
        let by = self.arrives_by(tick, message, group, from);
        let last = self.windows.greatest_arrival(message, from);
        if last <= by {
            return u32::MAX;
        }
        let next = self
            .next_follower(message, from, by)
            .min(next_start(self.time, starts, from, by));
        if last < next {
            return u32::MAX;
        }
        next.saturating_add(self.windows.least_proposal(message, from, group).max(1))
    }

    /// The next tick past that one at which a pair's commit may raise the clock higher.
    fn next_change(&self, starts: &[Start], tick: u32, pair: Pair) -> u32
        requires message { pair.message < length self.now.scenario.now.multicasts }
        requires known { pair.message < MOST_MULTICASTS }
        requires group { pair.group < MOST_GROUPS }
        requires tick { tick < u32.MAX }
        ensures past { tick < result }
        ensures same { 0 < tick → (later : ℕ) → tick ≤ later → later < result
            → IsSteady self.now.scenario.now (tables_by self.now.windows.now) self.now.sure.now
            starts.now tick later pair }
    {
        let mut next = self.next_least_arrival(pair.group, tick);
        for from in destinations(self.scenario, pair.message) {
            next = next.min(self.next_change_by(starts, tick, pair, *from));
        }
        next
    }

    /// The next tick past that one, at which a start covers that of a pair's commit, where this may be
    /// no more so.
    pub(crate) fn next_uncovered(&self, starts: &[Start], tick: u32, pair: Pair) -> u32
        requires message { pair.message < length self.now.scenario.now.multicasts }
        requires known { pair.message < MOST_MULTICASTS }
        requires group { pair.group < MOST_GROUPS }
        requires tick { tick < u32.MAX }
        ensures past { tick < result }
        ensures covered { IsCovered self.now.scenario.now (tables_by self.now.windows.now)
            self.now.sure.now self.now.barring starts.now tick pair
            → (later : ℕ) → tick ≤ later → later < result
            → IsCovered self.now.scenario.now (tables_by self.now.windows.now)
            self.now.sure.now self.now.barring starts.now later pair }
    {
        if !self.may_commit(tick, pair) {
            return self.next_commit_of(pair, tick + 1, u32::MAX);
        }
        if tick == 0 {
            return 1;
        }
        self.next_change(starts, tick, pair)
    }

    /// The next tick past that one at which a stamp may have come for a pair's commit that follows a
    /// commit at a group at that tick.
    fn next_reading(&self, pair: Pair, group: usize, tick: u32) -> u32
        requires message { pair.message < length self.now.scenario.now.multicasts }
        requires known { pair.message < MOST_MULTICASTS }
        requires own { pair.group < MOST_GROUPS }
        requires group { group < MOST_GROUPS }
        requires tick { tick < u32.MAX }
        ensures past { tick < result }
        ensures unread { (later : ℕ) → later < result → IsUnread self.now.scenario.now
            (tables_by self.now.windows.now) group tick later pair }
    {
        if tick == 0 {
            return 1;
        }
        let next = next_arrival(self.time, tick);
        if pair.group == group || self.windows.greatest_arrival(pair.message, group) < next {
            return u32::MAX;
        }
        let delay = self.windows.least_proposal(pair.message, group, pair.group);
        let first = self.windows.least_settling(pair.message, pair.group);
        next.saturating_add(delay.max(1)).max(first)
    }

    /// Brings the next ticks of pairs forward to those at which a start may count that was added at a
    /// group at that tick.
    pub(crate) fn hasten(&self, nexts: &mut [u32], pairs: &[Pair], group: usize, tick: u32)
        requires messages { All (λ p. p.message < length self.now.scenario.now.multicasts) pairs.now }
        requires groups { All (λ p. p.group < MOST_GROUPS) pairs.now }
        requires few { length self.now.scenario.now.multicasts ≤ MOST_MULTICASTS }
        requires long { length nexts.old ≡ length pairs.now }
        requires group { group < MOST_GROUPS }
        requires tick { tick < u32.MAX }
        ensures sooner { (k : ℕ) → k < length pairs.now
            → slice_index nexts.new k ≤ slice_index nexts.old k }
        ensures past { (k : ℕ) → tick < slice_index nexts.old k → tick < slice_index nexts.new k }
        ensures unread { (k : ℕ) (pair : Pair) (later : ℕ) → k < length pairs.now
            → later < slice_index nexts.new k → IsUnread self.now.scenario.now
            (tables_by self.now.windows.now) group tick later (slice_index_or pairs.now k pair) }
    {
        for k in 0..pairs.len() {
            nexts[k] = nexts[k].min(self.next_reading(pairs[k], group, tick));
        }
    }
}
