ghost use Rattle.std.specs.Prelude.{◌≡◌, ◌<◌, nat_le, length};
ghost use Rattle.convoy_scenario.specs.Scenario.{message_at, is_addressed};
ghost use Rattle.convoy_sim.specs.Moments.{next_arrival};
ghost use Rattle.convoy_intervals.specs.Spans.{span_of};

use super::pair::Pair;
use convoy_intervals::{Span, Tracked};
use convoy_packets::Instance;
use convoy_scenario::{Scenario, Time};
use std::marker::Model;

/// A scenario with a box, and what the box leaves open of each message at each group.
#[derive(Drop)]
pub(crate) struct Spans<'a> {
    instance: &'a Instance,
    tracked: &'a Tracked,
}

impl<'a> Model for Spans<'a> {
    ghost use Rattle.convoy_stamps.specs.Spans.{Boxed, IsBoxed};

    ghost Value = { Boxed };

    ghost view = { λ s. record { scenario = s.instance.now; ranges = s.tracked.now.delay_box } };

    ghost invariant = { λ s. IsBoxed s.instance.now s.tracked.now };
}

impl<'a> Spans<'a> {
    ghost use Rattle.convoy_scenario.specs.WellFormed.{IsScenario};
    ghost use Rattle.convoy_stamps.specs.Reach.{IsPair};
    ghost use Rattle.convoy_stamps.specs.Spans.{tables_in, target_follows, target_leads_to};
    ghost use Rattle.convoy_stamps.specs.Spans.{target_may_precede, target_may_raise};

    /// The spans of a box of the scenario.
    pub(crate) fn of(instance: &'a Instance, tracked: &'a Tracked) -> Self
        requires { tracked.now.scenario ≡ instance.now }
        ensures { result ≡ record { scenario = instance.now; ranges = tracked.now.delay_box } }
    {
        let _delay = instance.delay();
        Spans { instance, tracked }
    }

    /// The scenario of which the spans are.
    pub(crate) fn scenario(&self) -> &'a Scenario
        ensures value { result.now ≡ self.now.scenario }
        ensures lawful { IsScenario self.now.scenario }
    {
        self.instance.scenario()
    }

    /// What the box leaves open of a message at a group.
    pub(crate) fn span(&self, message: usize, group: usize) -> Span
        requires message { message < length self.now.scenario.multicasts }
        requires group { group < length self.now.scenario.groups }
        ensures { result ≡ span_of self.now.scenario self.now.ranges message group }
    {
        self.tracked.span(self.instance, message, group)
    }

    /// What the box leaves open of a message at the target's group.
    pub(crate) fn target_span(&self, message: usize) -> Span
        requires { message < length self.now.scenario.multicasts }
        ensures { result
            ≡ span_of self.now.scenario self.now.ranges message self.now.scenario.target_group }
    {
        self.span(message, self.scenario().target_group())
    }

    /// Whether a message goes to a group.
    fn goes_to(&self, message: usize, group: usize) -> bool
        requires { message < length self.now.scenario.multicasts }
        ensures { result ≡ is_addressed (message_at self.now.scenario message) group }
    {
        self.scenario().destinations(message).contains(&group)
    }

    /// Whether a message goes to the target's group.
    pub(crate) fn goes_to_target(&self, message: usize) -> bool
        requires { message < length self.now.scenario.multicasts }
        ensures { let scenario = self.now.scenario in result
            ≡ is_addressed (message_at scenario message) scenario.target_group }
    {
        self.goes_to(message, self.scenario().target_group())
    }

    /// The last tick at which the message of a pair may arrive at its group.
    fn last_arrival(&self, pair: Pair) -> u32
        requires { IsPair self.now.scenario pair }
        ensures { result ≡ (tables_in self.now).greatest_arrival pair.message pair.group }
    {
        let _scenario = self.scenario();
        self.span(pair.message, pair.group).arrival.1
    }

    /// Whether the next pair is at the same group, where its message may arrive no later than the
    /// pair's.
    fn may_precede(&self, pair: Pair, next: Pair) -> bool
        requires pair { IsPair self.now.scenario pair }
        requires next { IsPair self.now.scenario next }
        ensures { result ≡ target_may_precede self.now pair next }
    {
        let _scenario = self.scenario();
        next.group == pair.group
            && self.span(next.message, pair.group).arrival.0 <= self.last_arrival(pair)
    }

    /// Whether the message of the next pair goes to the pair's group too, and may be committed there
    /// before the pair's message arrives.
    fn may_raise(&self, pair: Pair, next: Pair) -> bool
        requires pair { IsPair self.now.scenario pair }
        requires next { IsPair self.now.scenario next }
        ensures { result ≡ target_may_raise self.now pair next }
    {
        let _scenario = self.scenario();
        self.goes_to(next.message, pair.group)
            && may_follow(
                self.instance.time(),
                self.span(next.message, pair.group).settling.0,
                self.last_arrival(pair),
            )
    }

    /// Whether the stamp of a pair may have the time after that of the next pair, which is of another
    /// message: the next pair's message may precede the pair's at its group, or, but for the target,
    /// raise the clock there (docs/PROTOCOL.md).
    fn leads_to(&self, pair: Pair, next: Pair) -> bool
        requires pair { IsPair self.now.scenario pair }
        requires next { IsPair self.now.scenario next }
        ensures { result ≡ target_leads_to self.now pair next }
    {
        let target = self.scenario().target_message();
        next.message != pair.message
            && (self.may_precede(pair, next)
                || (next.message != target && self.may_raise(pair, next)))
    }

    /// Whether the next pair is the pair itself, or one to which it leads.
    pub(crate) fn follows(&self, pair: Pair, next: Pair) -> bool
        requires pair { IsPair self.now.scenario pair }
        requires next { IsPair self.now.scenario next }
        ensures { result ≡ target_follows self.now pair next }
    {
        let same = pair.message == next.message && pair.group == next.group;
        same || self.leads_to(pair, next)
    }
}

/// Whether a message may arrive at a group at a tick after a commit there at another tick.
fn may_follow(time: Time, committed: u32, arrives: u32) -> bool
    ensures { result ≡ nat_le (next_arrival time committed) arrives }
{
    match time {
        Time::Ticks => committed < arrives,
        Time::Real => committed <= arrives,
    }
}
