//! Bounds of regions, counted from the issue of the target whenever that is.

ghost use Rattle.std.specs.Prelude.{◌≡◌, All, IfOk};
ghost use Rattle.convoy_intervals.specs.Boxes.{IsBox};
ghost use Rattle.convoy_regions.specs.Stages.{IsPrecedence};
ghost use Rattle.convoy_origin.specs.FromOrigin.{closes_from_origin, plain_from_origin, stamp_from_origin};

use super::from_origin_laws::from_origin_is_from_issue;
use super::origin::Origin;
use super::widened_laws::regions_widen;
use convoy_intervals::{DelayBox, bound};
use convoy_narrowing::closes_region;
use convoy_regions::Precedence;
use convoy_stamps::stamp_bound;
use std::alloc::{AllocError, Global};

/// The plain bound of a box, in ticks: no schedule of the box has a greater latency, counted from the issue of the
/// target whenever that is (docs/PROTOCOL.md, "Windows of the target"). The error is that memory ran out.
pub fn plain_from_origin(
    alloc: Global,
    origin: &Origin,
    delay_box: &DelayBox,
) -> Result<u32, AllocError>
    requires inside { IsBox origin.now delay_box.now }
    ensures { IfOk result (λ bound. bound ≡ plain_from_origin origin.now delay_box.now) }
{
    from_origin_is_from_issue();
    let Some(moved) = origin.moved() else {
        return Ok(bound(origin.instance(), delay_box));
    };
    let wide = origin.moved_box(alloc, moved, delay_box)?;
    Ok(bound(moved, &wide))
}

/// The stamp bound of a box, in ticks. The error is that memory ran out.
pub fn stamp_from_origin(
    alloc: Global,
    origin: &Origin,
    delay_box: &DelayBox,
) -> Result<u32, AllocError>
    requires inside { IsBox origin.now delay_box.now }
    ensures { IfOk result (λ bound. bound ≡ stamp_from_origin origin.now delay_box.now) }
{
    from_origin_is_from_issue();
    let Some(moved) = origin.moved() else {
        return stamp_bound(alloc, origin.instance(), delay_box);
    };
    let wide = origin.moved_box(alloc, moved, delay_box)?;
    stamp_bound(alloc, moved, &wide)
}

/// Whether leads close the region of a box and some precedences for a latency in ticks, so that no member has a
/// greater one. The error is that memory ran out; all that is taken is given back.
pub fn closes_from_origin(
    alloc: Global,
    origin: &Origin,
    delay_box: &DelayBox,
    before: &[Precedence],
    latency: u32,
) -> Result<bool, AllocError>
    requires inside { IsBox origin.now delay_box.now }
    requires within { All (IsPrecedence origin.now) before.now }
    ensures { IfOk result (λ closed. closed ≡ closes_from_origin origin.now
        (record { ranges = delay_box.now; before = before.now }) latency) }
{
    from_origin_is_from_issue();
    regions_widen();
    let Some(moved) = origin.moved() else {
        return closes_region(alloc, origin.instance(), delay_box, before, latency);
    };
    let wide = origin.moved_box(alloc, moved, delay_box)?;
    closes_region(alloc, moved, &wide, before, latency)
}
