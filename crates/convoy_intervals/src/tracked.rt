ghost use Rattle.std.specs.Prelude.{◌≡◌, ℕ, List, ◌<◌, ◌≤◌, ◌↔◌, length, slice_set, IfOk, IsTrue, MatchResult};
ghost use Rattle.convoy_packets.specs.Assignment.{Schedule};
ghost use Rattle.convoy_sim.specs.Delivery.{latency_of};
ghost use Rattle.convoy_intervals.specs.Boxes.{CanSplit, IsBox, IsIn, IsPoint};
ghost use Rattle.convoy_intervals.specs.Boxes.{greatest_of, lower_half, range_at, root_of, upper_half};
ghost use Rattle.convoy_intervals.specs.Bounds.{plain_bound};
ghost use Rattle.convoy_intervals.specs.Spans.{span_of, AreSpans};
ghost use Rattle.convoy_intervals.specs.Tracked.{tracked_of};

use super::bounds::bound_over;
use super::box_laws::{plain_bound_holds, spans_are_carried};
use super::delay_box::DelayBox;
use super::greatest_ticks::GreatestTicks;
use super::spans::{Span, follow_packet, list_spans, place};
use convoy_packets::Instance;
use convoy_packets::schedule_laws::{packets_are_those_sent, packets_stand_once};
use convoy_scenario::Scenario;
use convoy_sim::{Tag, latency_by};
use std::alloc::{AllocError, Global};
use std::marker::Model;

/// A box of delays of one scenario, which contracts name, with what a search asks of it: from when to
/// when each message may arrive at each group and be committed there, and the plain bound. A half
/// takes over what the split leaves as it is, so that to split a box costs little more than a copy
/// of it.
#[derive(Drop)]
pub struct Tracked {
    delay_box: DelayBox,
    spans: Vec<Span>,
    bound: u32,
    scenario: Tag<Scenario>,
}

impl Model for Tracked {
    ghost use Rattle.convoy_intervals.specs.Tracked.{Tracked, IsTracked};

    ghost Value = { Tracked };

    ghost view = { λ t. record { scenario = t.scenario.value; delay_box = t.delay_box } };

    ghost invariant = { λ t. IsTracked
        (record { scenario = t.scenario.value; delay_box = t.delay_box }) t.spans.items t.bound };
}

impl Tracked {
    /// The box in which each packet has its whole range. Fails where memory runs out, and else never.
    pub fn root(alloc: Global, instance: &Instance) -> Result<Tracked, AllocError>
        ensures { IfOk result
            (λ root. root ≡ tracked_of instance.now (root_of instance.now)) }
    {
        Tracked::over(alloc, instance, DelayBox::root(alloc, instance)?)
    }

    /// A box of the scenario, with all that is kept of it computed from the box. Fails where memory
    /// runs out, and else never; the box does not come back then.
    pub fn over(
        alloc: Global,
        instance: &Instance,
        delay_box: DelayBox,
    ) -> Result<Tracked, AllocError>
        requires inside { IsBox instance.now delay_box }
        ensures { IfOk result (λ tracked. tracked ≡ tracked_of instance.now delay_box) }
    {
        let spans = list_spans(alloc, instance, &delay_box)?;
        Ok(Tracked::of(instance, delay_box, spans))
    }

    /// A box with its spans.
    fn of(instance: &Instance, delay_box: DelayBox, spans: Vec<Span>) -> Tracked
        requires inside { IsBox instance.now delay_box }
        requires spans { AreSpans instance.now delay_box spans.items }
        ensures { result ≡ tracked_of instance.now delay_box }
    {
        let _delay = instance.delay();
        let bound = bound_over(instance, &spans);
        Tracked {
            delay_box,
            spans,
            bound,
            scenario: Tag::of(instance.scenario()),
        }
    }

    /// The box.
    pub fn delay_box(&self) -> &DelayBox
        ensures value { result.now ≡ self.now.delay_box }
        ensures lawful { IsBox self.now.scenario self.now.delay_box }
    {
        &self.delay_box
    }

    /// Whether each packet has one delay left, so that the box has one member.
    pub fn is_point(&self) -> bool
        ensures { IsTrue result ↔ IsPoint self.now.delay_box }
    {
        self.delay_box.is_point()
    }

    /// The plain bound of the box, in ticks: no schedule of the box has a greater latency.
    pub fn bound(&self) -> u32
        ensures value { result ≡ plain_bound self.now.scenario self.now.delay_box }
        ensures holds { (schedule : Schedule) → IsIn self.now.delay_box schedule
            → latency_of self.now.scenario schedule ≤ result }
    {
        plain_bound_holds();
        self.bound
    }

    /// From when to when a message may arrive at a group and be committed there, over the members of
    /// the box.
    pub fn span(&self, instance: &Instance, message: usize, group: usize) -> Span
        requires of_scenario { self.now.scenario ≡ instance.now }
        requires message { message < length self.now.scenario.multicasts }
        requires group { group < length self.now.scenario.groups }
        ensures { result ≡ span_of self.now.scenario self.now.delay_box message group }
    {
        self.spans[place(instance, message, group)]
    }

    /// The latency of the scenario in ticks where each packet takes the greatest time of its range.
    pub fn greatest_latency(&self, instance: &Instance) -> u32
        requires { self.now.scenario ≡ instance.now }
        ensures { result ≡ latency_of self.now.scenario (greatest_of self.now.delay_box) }
    {
        latency_by(&GreatestTicks {
            instance,
            tracked: self,
        })
    }

    /// A copy of the box, with all that is kept of it. Fails where memory runs out, and else never.
    pub fn copy(&self) -> Result<Tracked, AllocError>
        ensures { IfOk result (λ t. t ≡ self.now) }
    {
        Ok(Tracked {
            delay_box: self.delay_box.copy()?,
            spans: Vec::from_slice(*self.spans.allocator(), &self.spans)?,
            bound: self.bound,
            scenario: self.scenario.copy(),
        })
    }

    /// Splits the box at a packet into its halves: the lower one, in which the packet's delay is at
    /// most `at` ticks, and the upper one, in which it is more. Where memory runs out, the box comes
    /// back as it was.
    pub fn halves(
        self,
        instance: &Instance,
        packet: usize,
        at: u16,
    ) -> Result<(Tracked, Tracked), (Tracked, AllocError)>
        requires of_scenario { self.scenario ≡ instance.now }
        requires can_split { CanSplit self.delay_box packet at }
        ensures { MatchResult result
            (λ halves. halves ≡ (
              tracked_of self.scenario (lower_half self.delay_box packet at),
              tracked_of self.scenario (upper_half self.delay_box packet at),
            ))
            (λ refused. refused.0 ≡ self) }
    {
        let (least, most) = self.delay_box.range(packet);
        match self.copy() {
            Ok(copy) => {
                let lower = self.with_range(instance, packet, (least, at));
                let upper = copy.with_range(instance, packet, (at + 1, most));
                Ok((lower, upper))
            }
            Err(error) => Err((self, error)),
        }
    }

    /// The box with a smaller range in the place of a packet's.
    fn with_range(self, instance: &Instance, packet: usize, range: (u16, u16)) -> Tracked
        requires of_scenario { self.scenario ≡ instance.now }
        requires place { packet < length self.delay_box }
        requires holds { range.0 ≤ range.1 }
        requires low { (range_at self.delay_box packet).0 ≤ range.0 }
        requires high { range.1 ≤ (range_at self.delay_box packet).1 }
        ensures { result ≡ tracked_of self.scenario (slice_set self.delay_box packet range) }
    {
        spans_are_carried();
        packets_are_those_sent();
        packets_stand_once();
        let Tracked {
            mut delay_box,
            mut spans,
            ..
        } = self;
        delay_box.replace(packet, range);
        follow_packet(
            &mut spans,
            instance,
            &delay_box,
            instance.table().packet(packet),
        );
        Tracked::of(instance, delay_box, spans)
    }
}
