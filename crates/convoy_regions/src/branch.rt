ghost use Rattle.std.specs.Prelude.{◌≡◌, All, IfNone, IfOk, IfSome, IsTrue, ◌↔◌, MatchResult, false, true};
ghost use Rattle.convoy_packets.specs.Assignment.{IsAssignment};
ghost use Rattle.convoy_sim.specs.Delivery.{latency_of};
ghost use Rattle.convoy_intervals.specs.Boxes.{CanSplit, IsBox, IsPoint};
ghost use Rattle.convoy_intervals.specs.Tracked.{tracked_of};
ghost use Rattle.convoy_regions.specs.Branches.{branch_of};
ghost use Rattle.convoy_regions.specs.Stages.{IsPrecedence};
ghost use Rattle.convoy_regions.specs.Regions.{IsRegion, can_order, first_half, has_open_tie, is_open_tie, lower_half, root_region, run_of, second_half, upper_half, with_order};

use super::halving::ordered;
use super::run::run_of;
use super::stage::Precedence;
use super::ties::open_tie;
use convoy_intervals::{DelayBox, Tracked};
use convoy_packets::{Instance, Schedule};
use convoy_sim::latency;
use std::alloc::{AllocError, Global};
use std::marker::Model;

/// A region of one scenario, which contracts name, with what a search asks of it.
#[derive(Drop)]
pub struct Branch {
    tracked: Tracked,
    before: Vec<Precedence>,
    /// Whether it is a half by the delay of a packet.
    by_delay: bool,
}

impl Model for Branch {
    ghost use Rattle.convoy_regions.specs.Branches.{Branch};
    ghost use Rattle.convoy_regions.specs.Regions.{IsRegion};

    ghost Value = { Branch };

    ghost view = { λ b. record {
      scenario = b.tracked.scenario;
      region = record { ranges = b.tracked.delay_box; before = b.before.items };
    } };

    ghost invariant = { λ b. IsRegion b.tracked.scenario
        (record { ranges = b.tracked.delay_box; before = b.before.items }) };
}

impl Branch {
    /// The root: every assignment of the scenario is a member. Fails where memory runs out, and else never.
    pub fn root(alloc: Global, instance: &Instance) -> Result<Branch, AllocError>
        ensures { IfOk result (λ root. root ≡ branch_of instance.now (root_region instance.now)) }
    {
        Ok(Branch {
            tracked: Tracked::root(alloc, instance)?,
            before: Vec::new(alloc),
            by_delay: false,
        })
    }

    /// The region of the scenario of a box and some precedences. Fails where memory runs out, and else never; the box
    /// does not come back then.
    pub fn over(
        alloc: Global,
        instance: &Instance,
        delay_box: DelayBox,
        before: &[Precedence],
    ) -> Result<Branch, AllocError>
        requires inside { IsBox instance.now delay_box }
        requires within { All (IsPrecedence instance.now) before.now }
        ensures { IfOk result (λ branch. branch
            ≡ branch_of instance.now (record { ranges = delay_box; before = before.now })) }
    {
        Ok(Branch {
            tracked: Tracked::over(alloc, instance, delay_box)?,
            before: Vec::from_slice(alloc, before)?,
            by_delay: false,
        })
    }

    /// Its box, with what is kept of that.
    pub fn tracked(&self) -> &Tracked
        ensures value { result.now ≡ tracked_of self.now.scenario self.now.region.ranges }
        ensures lawful { IsRegion self.now.scenario self.now.region }
    {
        &self.tracked
    }

    /// Its box.
    pub fn delay_box(&self) -> &DelayBox
        ensures value { result.now ≡ self.now.region.ranges }
        ensures lawful { IsRegion self.now.scenario self.now.region }
    {
        self.tracked.delay_box()
    }

    /// Its precedences.
    pub fn before(&self) -> &[Precedence]
        ensures value { result.now ≡ self.now.region.before }
        ensures lawful { IsRegion self.now.scenario self.now.region }
    {
        &self.before
    }

    /// Whether it is a half of a region that was split at a packet, for searches in which such splits and those by
    /// orders take turns.
    pub fn is_half_by_delay(&self) -> bool {
        self.by_delay
    }

    /// Whether each packet has one delay left.
    pub fn is_point(&self) -> bool
        ensures { IsTrue result ↔ IsPoint self.now.region.ranges }
    {
        self.tracked.is_point()
    }

    /// The latency of the region's run, in ticks: with all its greatest delays, and ties as its precedences say.
    /// The error is that memory ran out.
    pub fn run_latency(&self, alloc: Global, instance: &Instance) -> Result<u32, AllocError>
        requires { self.now.scenario ≡ instance.now }
        ensures { IfOk result (λ ticks. ticks ≡ latency_of self.now.scenario (run_of self.now.scenario self.now.region)) }
    {
        if self.before.is_empty() {
            return Ok(self.tracked.greatest_latency(instance));
        }
        let schedule = self.run(alloc, instance)?;
        Ok(latency(instance, &schedule))
    }

    /// The run of the region. Fails where memory runs out, and else never.
    pub fn run(&self, alloc: Global, instance: &Instance) -> Result<Schedule, AllocError>
        requires { self.now.scenario ≡ instance.now }
        ensures value { IfOk result (λ schedule. schedule ≡ run_of self.now.scenario self.now.region) }
        ensures lawful { IfOk result (λ schedule. IsAssignment self.now.scenario schedule) }
    {
        run_of(alloc, instance, self.tracked.delay_box(), &self.before)
    }

    /// Two stages, by their numbers, that fall in one tick of the region's run, and of which either may come first
    /// by its precedences; none where there are no such. The error is that memory ran out.
    pub fn open_tie(
        &self,
        alloc: Global,
        instance: &Instance,
    ) -> Result<Option<(usize, usize)>, AllocError>
        requires { self.now.scenario ≡ instance.now }
        ensures some { IfOk result (λ tie. IfSome tie
            (λ tie. is_open_tie self.now.scenario self.now.region tie.0 tie.1 ≡ true)) }
        ensures none { IfOk result (λ tie. IfNone tie
            (has_open_tie self.now.scenario self.now.region ≡ false)) }
    {
        open_tie(alloc, instance, &self.tracked, &self.before)
    }

    /// Splits the region at a packet into its halves: the lower one, in which the packet's delay is at most `at`
    /// ticks, and the upper one, in which it is more. Where memory runs out, the region comes back as it was.
    pub fn halves(
        self,
        instance: &Instance,
        packet: usize,
        at: u16,
    ) -> Result<(Branch, Branch), (Branch, AllocError)>
        requires of_scenario { self.scenario ≡ instance.now }
        requires can_split { CanSplit self.region.ranges packet at }
        ensures { MatchResult result
            (λ halves. halves ≡ (
              branch_of self.scenario (lower_half self.region packet at),
              branch_of self.scenario (upper_half self.region packet at),
            ))
            (λ refused. refused.0 ≡ self) }
    {
        let copy = match copy_of(&self.before) {
            Ok(copy) => copy,
            Err(error) => return Err((self, error)),
        };
        let Branch {
            tracked,
            before,
            by_delay,
        } = self;
        match tracked.halves(instance, packet, at) {
            Ok((lower, upper)) => Ok((
                Branch {
                    tracked: lower,
                    before,
                    by_delay: true,
                },
                Branch {
                    tracked: upper,
                    before: copy,
                    by_delay: true,
                },
            )),
            Err((tracked, error)) => {
                let whole = Branch {
                    tracked,
                    before,
                    by_delay,
                };
                Err((whole, error))
            }
        }
    }

    /// Splits the region by the order of two stages, which have these numbers: into the half in which the first
    /// comes before the second, and that in which the second comes before the first. Where memory runs out, the
    /// region comes back as it was.
    pub fn orders(
        self,
        alloc: Global,
        instance: &Instance,
        first: usize,
        second: usize,
    ) -> Result<(Branch, Branch), (Branch, AllocError)>
        requires of_scenario { self.scenario ≡ instance.now }
        requires can_order { IsTrue (can_order self.scenario self.region first second) }
        ensures { MatchResult result
            (λ halves. halves ≡ (
              branch_of self.scenario (first_half self.scenario self.region first second),
              branch_of self.scenario (second_half self.scenario self.region first second),
            ))
            (λ refused. refused.0 ≡ self) }
    {
        match self.both_orders(alloc, instance, first, second) {
            Ok(halves) => Ok(halves),
            Err(error) => Err((self, error)),
        }
    }

    /// Both halves by the order of two stages, each with a copy of what is kept of the region. Fails where memory
    /// runs out, and else never.
    fn both_orders(
        &self,
        alloc: Global,
        instance: &Instance,
        first: usize,
        second: usize,
    ) -> Result<(Branch, Branch), AllocError>
        requires of_scenario { self.now.scenario ≡ instance.now }
        requires can_order { IsTrue (can_order self.now.scenario self.now.region first second) }
        ensures { IfOk result (λ halves. halves ≡ (
          branch_of self.now.scenario (first_half self.now.scenario self.now.region first second),
          branch_of self.now.scenario (second_half self.now.scenario self.now.region first second),
        )) }
    {
        let pair = ordered(alloc, instance.scenario(), first, second)?;
        let forth = self.with_order(alloc, pair)?;
        let back = self.with_order(alloc, (pair.1, pair.0))?;
        Ok((forth, back))
    }

    /// The region with a precedence more, in memory of its own. Fails where memory runs out, and else never.
    fn with_order(&self, alloc: Global, pair: Precedence) -> Result<Branch, AllocError>
        requires { IsPrecedence self.now.scenario pair }
        ensures { IfOk result (λ more. more
            ≡ branch_of self.now.scenario (with_order self.now.region pair.0 pair.1)) }
    {
        let mut before = Vec::from_slice(alloc, &self.before)?;
        before.push(pair)?;
        Ok(Branch {
            tracked: self.tracked.copy()?,
            before,
            by_delay: false,
        })
    }
}

/// The precedences, in memory of their own. Fails where memory runs out, and else never.
fn copy_of(before: &Vec<Precedence>) -> Result<Vec<Precedence>, AllocError>
    ensures { IfOk result (λ copy. copy.items ≡ before.now.items) }
{
    Ok(Vec::from_slice(*before.allocator(), before)?)
}
