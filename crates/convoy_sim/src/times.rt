use convoy_packets::{Instance, Schedule};
use convoy_scenario::{GREATEST_UNTIL, MOST_GROUPS, MOST_MULTICASTS, Scenario, Time};
use std::marker::Model;

/// A scenario with a schedule, as packets see it: how long each is on its way.
#[derive(Drop)]
pub(crate) struct Times<'a> {
    instance: &'a Instance,
    schedule: &'a Schedule,
}

impl<'a> Model for Times<'a> {
    ghost use Rattle.convoy_sim.specs.Scheduled.{Scheduled};

    ghost Value = { Scheduled };

    ghost view = { λ t. record { scenario = t.instance.now; schedule = t.schedule.now } };
}

impl<'a> Times<'a> {
    ghost use Rattle.std.specs.Prelude.{◌≡◌, ◌+◌, ◌<◌, ◌≤◌, length};
    ghost use Rattle.convoy_packets.specs.Assignment.{IsAssignment, delay_of};
    ghost use Rattle.convoy_packets.specs.declared.packet.Packet.TheVariants.{Propose};
    ghost use Rattle.convoy_packets.specs.Order.{rank_at};
    ghost use Rattle.convoy_sim.specs.Times.{issue, arrive};
    ghost use Rattle.convoy_sim.specs.Moments.{arrival_rank, rank_in};

    /// The times of an instance under a schedule.
    pub(crate) fn new(instance: &'a Instance, schedule: &'a Schedule) -> Self
        ensures { result ≡ record { scenario = instance.now; schedule = schedule.now } }
    {
        Times { instance, schedule }
    }

    /// The scenario of which the times are.
    pub(crate) fn scenario(&self) -> &'a Scenario
        ensures { result.now ≡ self.now.scenario }
    {
        self.instance.scenario()
    }

    /// The tick at which the message is issued: the first at which it may be, and its wait.
    #[tactic(auto, unfolding(convoy_packets::specs::Assignment::delay_of), using(crate::proofs::Destinations::issued_soon))]
    pub(crate) fn issue(&self, message: usize) -> u32
        requires message { message < length self.now.scenario.multicasts }
        requires assignment { IsAssignment self.now.scenario self.now.schedule }
        ensures tick { result ≡ issue self.now.scenario self.now.schedule message }
        ensures soon { result ≤ GREATEST_UNTIL }
    {
        let wait = self.instance.table().wait_in(self.schedule, message);
        self.instance.issue_tick(message) + u32::from(wait)
    }

    /// The tick at which the message arrives at the group: its issue and the delay of its packet to
    /// the group. To the group that sends it there is no packet, unless that has a link to itself: it comes there as it is issued.
    #[tactic(auto, unfolding(crate::specs::Times::arrive, convoy_packets::specs::Assignment::delay_of))]
    pub(crate) fn arrival(&self, message: usize, group: usize) -> u32
        requires message { message < length self.now.scenario.multicasts }
        requires assignment { IsAssignment self.now.scenario self.now.schedule }
        ensures tick { result ≡ arrive self.now.scenario self.now.schedule message group }
        ensures soon { result ≤ GREATEST_UNTIL + u16.MAX }
    {
        let delay = self
            .instance
            .table()
            .multicast_delay(self.schedule, message, group);
        self.issue(message) + u32::from(delay)
    }

    /// The rank of the arrival of the message at the group: in whole ticks each counts as 0.
    #[tactic(auto, unfolding(crate::specs::Moments::arrival_rank))]
    pub(crate) fn arrival_rank(&self, message: usize, group: usize) -> u8
        requires message { message < MOST_MULTICASTS }
        requires group { group < MOST_GROUPS }
        ensures { result ≡ arrival_rank self.now.scenario self.now.schedule message group }
    {
        match self.instance.time() {
            Time::Ticks => 0,
            Time::Real => self.schedule.order().arrival(message, group),
        }
    }

    /// The rank that the schedule gives the commit of the message at the group: in whole ticks each
    /// counts as 0.
    pub(crate) fn given_rank(&self, message: usize, group: usize) -> u8
        requires message { message < MOST_MULTICASTS }
        requires group { group < MOST_GROUPS }
        ensures { result ≡ rank_in self.now.scenario.time
            (rank_at self.now.schedule.order.commits message group) }
    {
        match self.instance.time() {
            Time::Ticks => 0,
            Time::Real => self.schedule.order().commit(message, group),
        }
    }

    /// How long the proposal of the group `from` for the message is on its way to the group.
    #[tactic(auto, unfolding(convoy_packets::specs::Assignment::delay_of))]
    pub(crate) fn proposal_delay(&self, message: usize, from: usize, group: usize) -> u32
        ensures value { result
            ≡ delay_of self.now.scenario self.now.schedule (Propose message from group) }
        ensures short { result ≤ u16.MAX }
    {
        u32::from(
            self.instance
                .table()
                .propose_delay(self.schedule, message, from, group),
        )
    }
}
