ghost use Rattle.std.specs.Prelude.{◌≡◌, ◌<◌, ℕ, length, slice_index};
ghost use Rattle.convoy_packets.specs.Assignment.{IsAssignment};
ghost use Rattle.convoy_sim.specs.Times.{arrive, settle};
ghost use Rattle.convoy_sim.specs.Moments.{rank_then};
ghost use Rattle.convoy_packets.specs.Order.{place};
ghost use Rattle.convoy_sim.specs.Places.{IsRow, AreOthersKept};

use super::ticks::Ticks;
use super::times::Times;
use convoy_packets::{PLACES, place};
use convoy_scenario::Scenario;
use std::marker::Model;

/// A scenario with a schedule: when each message arrives at each group, and when it is committed
/// there, in ticks, in tables by the place of the message at the group. No clock stands in either
/// (docs/PROTOCOL.md).
#[derive(Drop)]
pub(crate) struct Timetable<'a> {
    times: Times<'a>,
    arrivals: [u32; PLACES],
    settlings: [u32; PLACES],
}

impl<'a> Model for Timetable<'a> {
    ghost use Rattle.convoy_sim.specs.Scheduled.{Scheduled};
    ghost use Rattle.convoy_sim.specs.Timetable.{IsTimetable};

    ghost Value = { Scheduled };

    ghost view = { λ t. t.times };

    ghost invariant = { λ t. IsTimetable t.times.scenario t.times.schedule t.arrivals t.settlings };
}

impl<'a> Timetable<'a> {
    /// The timetable of a scenario under a schedule.
    pub(crate) fn of(times: Times<'a>) -> Self
        requires { IsAssignment times.scenario times.schedule }
        ensures { result ≡ times.entry }
    {
        let mut arrivals = [0; PLACES];
        let mut settlings = [0; PLACES];
        for message in 0..times.scenario().message_count() {
            write_arrivals(&mut arrivals, &times, message);
            write_settlings(&mut settlings, &arrivals, &times, message);
        }
        Timetable {
            times,
            arrivals,
            settlings,
        }
    }
}

impl<'a> Timetable<'a> {
    /// The rank of the arrival of the message at the group if it is in that tick, else 0.
    fn rank_then(&self, message: usize, tick: u32, group: usize) -> u8
        requires message { message < length self.now.scenario.multicasts }
        requires group { group < length self.now.scenario.groups }
        ensures { result ≡ rank_then self.now.scenario self.now.schedule message tick group }
    {
        if self.arrival(message, group) == tick {
            self.times.arrival_rank(message, group)
        } else {
            0
        }
    }
}

impl<'a> Ticks for Timetable<'a> {
    ghost scheduled = { λ t. t };

    fn scenario(&self) -> &Scenario {
        self.times.scenario()
    }

    fn issue(&self, message: usize) -> u32 {
        self.times.issue(message)
    }

    fn arrival(&self, message: usize, group: usize) -> u32 {
        let arrivals = &self.arrivals;
        arrivals[place(message, group)]
    }

    fn settling(&self, message: usize, group: usize) -> u32 {
        let settlings = &self.settlings;
        settlings[place(message, group)]
    }

    fn arrival_rank(&self, message: usize, group: usize) -> u8 {
        self.times.arrival_rank(message, group)
    }

    fn commit_rank(&self, message: usize, group: usize) -> u8 {
        let tick = self.settling(message, group);
        let mut rank = self.times.given_rank(message, group);
        for from in self.scenario().destinations(message) {
            rank = rank.max(self.rank_then(message, tick, *from));
        }
        rank
    }
}

/// Writes the ticks at which the message arrives at the groups.
fn write_arrivals(arrivals: &mut [u32; PLACES], times: &Times, message: usize)
    requires message { message < length times.now.scenario.multicasts }
    requires assignment { IsAssignment times.now.scenario times.now.schedule }
    ensures row { IsRow (arrive times.now.scenario times.now.schedule message)
        (length times.now.scenario.groups) message arrivals.new }
    ensures others { AreOthersKept message arrivals.old arrivals.new }
{
    for group in 0..times.scenario().group_count() {
        arrivals[place(message, group)] = times.arrival(message, group);
    }
}

/// Writes the ticks at which the message is committed at the groups, from those at which it comes.
fn write_settlings(
    settlings: &mut [u32; PLACES],
    arrivals: &[u32; PLACES],
    times: &Times,
    message: usize,
)
    requires message { message < length times.now.scenario.multicasts }
    requires assignment { IsAssignment times.now.scenario times.now.schedule }
    requires arrivals { IsRow (arrive times.now.scenario times.now.schedule message)
        (length times.now.scenario.groups) message arrivals.now }
    ensures row { IsRow (settle times.now.scenario times.now.schedule message)
        (length times.now.scenario.groups) message settlings.new }
    ensures others { AreOthersKept message settlings.old settlings.new }
{
    for group in 0..times.scenario().group_count() {
        settlings[place(message, group)] = settling(arrivals, times, message, group);
    }
}

/// The tick at which the message is committed at the group: that of the last proposal to come, the
/// group's own among them.
fn settling(arrivals: &[u32; PLACES], times: &Times, message: usize, group: usize) -> u32
    requires message { message < length times.now.scenario.multicasts }
    requires assignment { IsAssignment times.now.scenario times.now.schedule }
    requires arrivals { IsRow (arrive times.now.scenario times.now.schedule message)
        (length times.now.scenario.groups) message arrivals.now }
    ensures { result ≡ settle times.now.scenario times.now.schedule message group }
{
    let mut last = 0u32;
    for from in times.scenario().destinations(message) {
        let come = arrivals[place(message, *from)];
        last = last.max(come + times.proposal_delay(message, *from, group));
    }
    last
}
