ghost use Rattle.std.specs.Prelude.{◌≡◌, ◌≤◌, IfOk, IsTrue};
ghost use Rattle.convoy_packets.specs.Assignment.{Schedule};
ghost use Rattle.convoy_packets.specs.Order.{IsOrder};
ghost use Rattle.convoy_sim.specs.Delivery.{latency_of};
ghost use Rattle.convoy_intervals.specs.Boxes.{IsBox, IsIn};
ghost use Rattle.convoy_leads.specs.Closing.{closes_by_leads};

use super::lead_laws::leads_hold;
use super::lead_test::LeadTest;
use convoy_intervals::DelayBox;
use convoy_intervals::box_laws::members_are_assignments;
use convoy_packets::Instance;
use convoy_starts::Scratch;
use std::alloc::{AllocError, Global};

/// Whether leads close a box for a latency in ticks, so that no schedule of the box has a greater one
/// (docs/LEADS.md). The error is that memory ran out; all that is taken is given back.
pub fn closes_by_leads(
    alloc: Global,
    instance: &Instance,
    delay_box: &DelayBox,
    latency: u32,
) -> Result<bool, AllocError>
    requires inside { IsBox instance.now delay_box.now }
    ensures value { IfOk result
        (λ closed. closed ≡ closes_by_leads instance.now delay_box.now latency) }
    ensures holds { IfOk result (λ closed. IsTrue closed → (schedule : Schedule)
        → IsIn delay_box.now schedule → IsOrder instance.now schedule.order
        → latency_of instance.now schedule ≤ latency) }
{
    leads_hold();
    members_are_assignments();
    let _scenario = instance.scenario();
    let test = LeadTest::of(alloc, instance, delay_box)?;
    let shown = test.shows(latency, &mut Scratch::new(alloc))?;
    Ok(shown.is_closed())
}
