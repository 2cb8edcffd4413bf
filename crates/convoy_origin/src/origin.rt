//! Instances with the widened one, of which bounds are asked where the target may wait.

ghost use Rattle.std.specs.Prelude.{◌≡◌, ◌≤◌, All, IfNone, IfOk, IfSome, IsTrue};
ghost use Rattle.convoy_scenario.specs.WellFormed.{IsScenario};
ghost use Rattle.convoy_intervals.specs.Boxes.{IsBox};
ghost use Rattle.convoy_regions.specs.Branches.{branch_of};
ghost use Rattle.convoy_regions.specs.Regions.{IsRegion};
ghost use Rattle.convoy_scenario.specs.Widened.{target_wait, widened};
ghost use Rattle.convoy_packets.specs.ScheduleLaws.{is_sent};
ghost use Rattle.convoy_origin.specs.WidenedBoxes.{range_in, widened_box, widened_range};
ghost use Rattle.convoy_origin.specs.WidenedRegions.{widened_region};

use super::widened_laws::regions_widen;
use convoy_intervals::DelayBox;
use convoy_packets::{Instance, Packet};
use convoy_regions::Branch;
use convoy_scenario::widened_laws::widened_is_scenario;
use std::alloc::{AllocError, Global};
use std::marker::Model;

/// An instance, and where its target may wait the widened one: of that one bounds are asked, since in it the issue of
/// the target is known (docs/PROTOCOL.md, "Windows of the target"). Contracts see the scenario of the instance.
#[derive(Drop)]
pub struct Origin<'a> {
    instance: &'a Instance,
    moved: Option<Instance>,
}

impl<'a> Model for Origin<'a> {
    ghost use Rattle.convoy_scenario.specs.Scenario.{Scenario};
    ghost use Rattle.convoy_origin.specs.Origins.{IsMoved};

    ghost Value = { Scenario };

    ghost view = { λ o. o.instance.now };

    ghost invariant = { λ o. IsMoved o.instance.now o.moved };
}

impl<'a> Origin<'a> {
    /// The instance with its widened one. Fails where memory runs out, and else never.
    pub fn of(alloc: Global, instance: &'a Instance) -> Result<Origin<'a>, AllocError>
        ensures { IfOk result (λ origin. origin ≡ instance.now) }
    {
        let scenario = instance.scenario();
        if scenario.longest_wait(scenario.target_message()) == 0 {
            return Ok(Origin {
                instance,
                moved: None,
            });
        }
        let moved = Instance::of(alloc, scenario.widened()?)?;
        Ok(Origin {
            instance,
            moved: Some(moved),
        })
    }

    /// The instance.
    pub fn instance(&self) -> &'a Instance
        ensures value { result.now ≡ self.now }
        ensures lawful { IsScenario self.now }
    {
        let _delay = self.instance.delay();
        self.instance
    }

    /// The widened instance; none where the target does not wait, and the instance is its own.
    pub fn moved(&self) -> Option<&Instance>
        ensures none { IfNone result (target_wait self.now ≡ 0) }
        ensures some { IfSome result (λ moved. moved.now ≡ widened self.now) }
        ensures lawful { IsScenario self.now }
    {
        let _delay = self.instance.delay();
        self.moved.as_ref()
    }

    /// The box of the widened instance that holds the members of a box, with their issues moved. Fails where memory
    /// runs out, and else never.
    pub fn moved_box(
        &self,
        alloc: Global,
        moved: &Instance,
        delay_box: &DelayBox,
    ) -> Result<DelayBox, AllocError>
        requires moved { moved.now ≡ widened self.now }
        requires inside { IsBox self.now delay_box.now }
        ensures value { IfOk result (λ wide. wide ≡ widened_box self.now delay_box.now) }
        ensures inside { IfOk result (λ wide. IsBox (widened self.now) wide) }
    {
        let from = self.instance;
        let mut wide = DelayBox::root(alloc, moved)?;
        for place in 0..moved.table().len() {
            let range = moved_range(from, moved.table().packet(place), delay_box);
            wide.replace(place, range);
        }
        Ok(wide)
    }

    /// The region of the widened instance that holds the members of a region, with their issues moved, for a search.
    /// Fails where memory runs out, and else never.
    pub fn moved_branch(
        &self,
        alloc: Global,
        moved: &Instance,
        branch: &Branch,
    ) -> Result<Branch, AllocError>
        requires moved { moved.now ≡ widened self.now }
        requires of_scenario { branch.now.scenario ≡ self.now }
        ensures { IfOk result (λ wide. wide
            ≡ branch_of (widened self.now) (widened_region self.now branch.now.region)) }
    {
        regions_widen();
        let delay_box = self.moved_box(alloc, moved, branch.delay_box())?;
        Branch::over(alloc, moved, delay_box, branch.before())
    }
}

/// The range of a packet of the widened instance in the box that holds the members of a box of the instance, with
/// their issues moved, in ticks.
fn moved_range(instance: &Instance, packet: Packet, delay_box: &DelayBox) -> (u16, u16)
    requires inside { IsBox instance.now delay_box.now }
    requires sent { IsTrue (is_sent (widened instance.now) packet) }
    ensures value { result ≡ widened_range instance.now delay_box.now packet }
    ensures ordered { result.0 ≤ result.1 }
{
    let Packet::Wait { message } = packet else {
        return range_in(instance, packet, delay_box);
    };
    widened_is_scenario();
    let scenario = instance.scenario();
    let target = scenario.target_message();
    let longest = u32::from(scenario.longest_wait(target));
    let (least, most) = range_in(instance, packet, delay_box);
    let (first, last) = range_in(instance, Packet::Wait { message: target }, delay_box);
    let low = (u32::from(least) + longest).saturating_sub(u32::from(last));
    let high = (u32::from(most) + longest).saturating_sub(u32::from(first));
    (low as u16, high as u16)
}

/// The range of a packet of the instance in a box, in ticks; what is no packet takes no time.
#[tactic(auto, unfolding(crate::specs::WidenedBoxes::range_in))]
fn range_in(instance: &Instance, packet: Packet, delay_box: &DelayBox) -> (u16, u16)
    requires { IsBox instance.now delay_box.now }
    ensures value { result ≡ range_in instance.now delay_box.now packet }
    ensures ordered { result.0 ≤ result.1 }
{
    match instance.table().place(packet) {
        Some(place) => delay_box.range(usize::from(place)),
        None => (0, 0),
    }
}
