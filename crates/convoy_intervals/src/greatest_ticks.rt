ghost use Rattle.std.specs.Prelude.{◌≡◌};

use super::delay_box::DelayBox;
use super::times::{arrivals, issues, settlings};
use super::tracked::Tracked;
use convoy_packets::Instance;
use convoy_scenario::Scenario;
use convoy_sim::Ticks;
use convoy_sim::protocol_laws::fixed_ranks_are_none;
use std::marker::Model;

/// When messages arrive and are committed under the schedule of the greatest delays of a box, as the
/// box has it at hand.
#[derive(Drop)]
pub(crate) struct GreatestTicks<'a> {
    pub(crate) instance: &'a Instance,
    pub(crate) tracked: &'a Tracked,
    ghost of_scenario: { tracked.now.scenario ≡ instance.now },
}

impl<'a> Ticks for GreatestTicks<'a> {
    ghost use Rattle.convoy_intervals.specs.Boxes.{greatest_of};

    ghost scheduled = { λ t. record {
      scenario = t.tracked.now.scenario;
      schedule = greatest_of t.tracked.now.delay_box;
    } };

    fn scenario(&self) -> &Scenario {
        let _delay_box = self.tracked.delay_box();
        self.instance.scenario()
    }

    fn issue(&self, message: usize) -> u32 {
        issues(self.instance, self.tracked.delay_box(), message).1
    }

    fn arrival(&self, message: usize, group: usize) -> u32 {
        let span = self.tracked.span(self.instance, message, group);
        span.arrival.1
    }

    fn settling(&self, message: usize, group: usize) -> u32 {
        let span = self.tracked.span(self.instance, message, group);
        span.settling.1
    }

    fn arrival_rank(&self, _message: usize, _group: usize) -> u8 {
        fixed_ranks_are_none();
        0
    }

    fn commit_rank(&self, _message: usize, _group: usize) -> u8 {
        fixed_ranks_are_none();
        0
    }
}

/// When messages arrive and are committed under the schedule of the greatest delays of a box, from its
/// ranges.
#[derive(Drop)]
pub(crate) struct BoxTicks<'a> {
    pub(crate) instance: &'a Instance,
    pub(crate) delay_box: &'a DelayBox,
}

impl<'a> Model for BoxTicks<'a> {
    ghost use Rattle.convoy_sim.specs.Scheduled.{Scheduled};
    ghost use Rattle.convoy_intervals.specs.Boxes.{IsBox, greatest_of};

    ghost Value = { Scheduled };

    ghost view = { λ t. record { scenario = t.instance.now; schedule = greatest_of t.delay_box.now } };

    ghost invariant = { λ t. IsBox t.instance.now t.delay_box.now };
}

impl<'a> Ticks for BoxTicks<'a> {
    ghost scheduled = { λ t. t };

    fn scenario(&self) -> &Scenario {
        self.instance.scenario()
    }

    fn issue(&self, message: usize) -> u32 {
        issues(self.instance, self.delay_box, message).1
    }

    fn arrival(&self, message: usize, group: usize) -> u32 {
        arrivals(self.instance, self.delay_box, message, group).1
    }

    fn settling(&self, message: usize, group: usize) -> u32 {
        settlings(self.instance, self.delay_box, message, group).1
    }

    fn arrival_rank(&self, _message: usize, _group: usize) -> u8 {
        fixed_ranks_are_none();
        let _delay_box = self.delay_box;
        0
    }

    fn commit_rank(&self, _message: usize, _group: usize) -> u8 {
        fixed_ranks_are_none();
        let _delay_box = self.delay_box;
        0
    }
}
