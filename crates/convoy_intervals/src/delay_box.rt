ghost use Rattle.std.specs.Prelude.{◌≡◌, ◌≤◌, ◌<◌, ◌↔◌, length, slice_set, IfOk, IsTrue, MatchResult};
ghost use Rattle.convoy_scenario.specs.Scenario.{Scenario};
ghost use Rattle.convoy_intervals.specs.Boxes.{AreRanges, CanSplit, IsBox, IsIn, IsPoint};
ghost use Rattle.convoy_intervals.specs.Boxes.{can_split, is_point, range_at, lower_half, upper_half};
ghost use Rattle.convoy_intervals.specs.Boxes.{greatest_of, root_of};
ghost use Rattle.convoy_packets.specs.Table.{greatest_delays};
ghost use Rattle.convoy_sim.specs.Delivery.{latency_of};

use super::greatest_ticks::BoxTicks;
use convoy_packets::{Instance, Schedule};
use convoy_scenario::Scenario;
use convoy_sim::latency_by;
use std::alloc::{AllocError, Global};
use std::marker::Model;

/// A range of delays for each packet of a scenario, by the packet's place in the packet list. A
/// range is a least and a greatest delay, in ticks, and both belong to it. A schedule is a member
/// of the box if each of its delays lies in the packet's range.
#[derive(Drop)]
pub struct DelayBox {
    ranges: Vec<(u16, u16)>,
}

impl Model for DelayBox {
    ghost use Rattle.std.specs.Prelude.{ℕ, List};
    ghost use Rattle.convoy_intervals.specs.Boxes.{AreRanges};

    ghost Value = { List (ℕ × ℕ) };

    ghost view = { λ b. b.ranges.items };

    ghost invariant = { λ b. AreRanges b.ranges.items };
}

impl DelayBox {
    /// The box in which each packet has its whole range: its members are the assignments of the
    /// scenario. Fails where memory runs out, and else never.
    pub fn root(alloc: Global, instance: &Instance) -> Result<DelayBox, AllocError>
        ensures value { IfOk result (λ root. root ≡ root_of instance.now) }
        ensures is_box { IfOk result (λ root. IsBox instance.now root) }
    {
        Ok(DelayBox {
            ranges: instance.table().ranges().to_vec(alloc)?,
        })
    }

    /// How many packets there are, each with a range.
    pub fn len(&self) -> usize
        ensures value { result ≡ length self.now }
        ensures lawful { AreRanges self.now }
    {
        self.ranges.len()
    }

    /// Whether there is no packet at all.
    pub fn is_empty(&self) -> bool
        ensures { IsTrue result ↔ (length self.now ≡ 0) }
    {
        self.ranges.is_empty()
    }

    /// The least and the greatest delay of a packet, in ticks.
    pub fn range(&self, packet: usize) -> (u16, u16)
        requires { packet < length self.now }
        ensures value { result ≡ range_at self.now packet }
        ensures ordered { result.0 ≤ result.1 }
    {
        self.ranges[packet]
    }

    /// Whether each packet has one delay left, so that the box has one member.
    pub fn is_point(&self) -> bool
        ensures value { result ≡ is_point self.now }
        ensures point { IsTrue result ↔ IsPoint self.now }
    {
        self.ranges.iter().all(|(least, most)| least == most)
    }

    /// Whether the box may be split at a packet: there is such a packet, and its range has delays of
    /// at most `at` ticks and of more.
    pub fn can_split(&self, packet: usize, at: u16) -> bool
        ensures value { result ≡ can_split self.now packet at }
        ensures splits { IsTrue result ↔ CanSplit self.now packet at }
    {
        if packet >= self.ranges.len() {
            return false;
        }
        let (least, most) = self.ranges[packet];
        least <= at && at < most
    }

    /// The latency of the scenario in ticks where each packet takes the greatest time of its range.
    /// Takes no memory.
    pub fn greatest_latency(&self, instance: &Instance) -> u32
        requires inside { IsBox instance.now self.now }
        ensures { result ≡ latency_of instance.now (greatest_of self.now) }
    {
        latency_by(&BoxTicks {
            instance,
            delay_box: self,
        })
    }

    /// The member of the box in which each packet takes the greatest time of its range. Fails where
    /// memory runs out, and else never.
    pub fn greatest(&self, alloc: Global) -> Result<Schedule, AllocError>
        ensures value { IfOk result (λ schedule. schedule ≡ greatest_of self.now) }
        ensures member { IfOk result (λ schedule. IsIn self.now schedule) }
    {
        let delays = greatest_delays(alloc, &self.ranges)?;
        Ok(Schedule::of(delays))
    }

    /// A copy of the box. Fails where memory runs out, and else never.
    pub fn copy(&self) -> Result<DelayBox, AllocError>
        ensures { IfOk result (λ b. b ≡ self.now) }
    {
        Ok(DelayBox {
            ranges: self.ranges.clone()?,
        })
    }

    /// Gives a packet another range, in ticks, and answers the one that it had.
    pub fn replace(&mut self, packet: usize, range: (u16, u16)) -> (u16, u16)
        requires place { packet < length self.old }
        requires ordered { range.0 ≤ range.1 }
        ensures replaced { self.new ≡ slice_set self.old packet range }
        ensures earlier { result ≡ range_at self.old packet }
        ensures ordered { result.0 ≤ result.1 }
    {
        let earlier = self.range(packet);
        self.ranges[packet] = range;
        earlier
    }

    /// Splits the box at a packet into its halves: the lower one, in which the packet's delay is at
    /// most `at` ticks, and the upper one, in which it is more. Where memory runs out, the box comes
    /// back as it was.
    pub fn halves(
        self,
        packet: usize,
        at: u16,
    ) -> Result<(DelayBox, DelayBox), (DelayBox, AllocError)>
        requires { CanSplit self packet at }
        ensures value { MatchResult result
            (λ halves. halves ≡ (lower_half self packet at, upper_half self packet at))
            (λ refused. refused.0 ≡ self) }
        ensures are_boxes { (scenario : Scenario) → IsBox scenario self
            → IfOk result (λ halves. IsBox scenario halves.0 × IsBox scenario halves.1) }
    {
        let (least, most) = self.range(packet);
        match self.copy() {
            Ok(mut upper) => {
                let mut lower = self;
                lower.ranges[packet] = (least, at);
                upper.ranges[packet] = (at + 1, most);
                Ok((lower, upper))
            }
            Err(error) => Err((self, error)),
        }
    }
}

/// The greatest delay of each range.
fn greatest_delays(alloc: Global, ranges: &[(u16, u16)]) -> Result<Vec<u16>, AllocError>
    ensures { IfOk result (λ delays. delays.items ≡ greatest_delays ranges.now) }
{
    ranges.iter().map(|range| range.1).collect(alloc)
}
