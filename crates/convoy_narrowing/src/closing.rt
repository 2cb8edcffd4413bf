ghost use Rattle.std.specs.Prelude.{◌≡◌, ◌≤◌, All, IfOk, IsTrue};
ghost use Rattle.convoy_packets.specs.Assignment.{IsAssignment, Schedule};
ghost use Rattle.convoy_sim.specs.Delivery.{latency_of};
ghost use Rattle.convoy_intervals.specs.Boxes.{IsBox};
ghost use Rattle.convoy_regions.specs.Stages.{IsPrecedence};
ghost use Rattle.convoy_narrowing.specs.Narrowing.{closes_narrowed, closes_region};

use super::narrowing::narrowed;
use convoy_intervals::DelayBox;
use convoy_leads::{LeadTest, Scratch, closes_by_leads};
use convoy_packets::Instance;
use convoy_regions::Precedence;
use std::alloc::{AllocError, Global};

/// Whether leads close the region of a box and some precedences for a latency in ticks, so that no member has a
/// greater one: over the windows of the box, or over those of the region (docs/LEADS.md, "Orders"). The error is
/// that memory ran out; all that is taken is given back.
pub fn closes_region(
    alloc: Global,
    instance: &Instance,
    delay_box: &DelayBox,
    before: &[Precedence],
    latency: u32,
) -> Result<bool, AllocError>
    requires inside { IsBox instance.now delay_box.now }
    requires within { All (IsPrecedence instance.now) before.now }
    ensures { IfOk result (λ closed. closed ≡ closes_region instance.now
        (record { ranges = delay_box.now; before = before.now }) latency) }
{
    if closes_by_leads(alloc, instance, delay_box, latency)? {
        return Ok(true);
    }
    if before.is_empty() {
        return Ok(false);
    }
    closes_narrowed(alloc, instance, delay_box, before, latency)
}

/// Whether leads close the windows of the region for a latency in ticks.
fn closes_narrowed(
    alloc: Global,
    instance: &Instance,
    delay_box: &DelayBox,
    before: &[Precedence],
    latency: u32,
) -> Result<bool, AllocError>
    requires inside { IsBox instance.now delay_box.now }
    requires within { All (IsPrecedence instance.now) before.now }
    ensures { IfOk result (λ closed. closed ≡ closes_narrowed instance.now
        (record { ranges = delay_box.now; before = before.now }) latency) }
{
    let windows = narrowed(alloc, instance, delay_box, before)?;
    let test = LeadTest::over(alloc, instance, windows)?;
    let shown = test.shows(latency, &mut Scratch::new(alloc))?;
    Ok(shown.is_closed())
}
