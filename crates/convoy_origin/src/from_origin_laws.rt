//! The laws of bounds counted from the issue of the target. Each is the one clause of a function that does nothing; a
//! caller that needs the law calls the function.

ghost use Rattle.convoy_origin.specs.FromOriginLaws.{FromOriginIsFromIssue, LeadsFromOriginHold};
ghost use Rattle.convoy_origin.specs.FromOriginLaws.{PlainFromOriginHolds, StampAtMostPlainFromOrigin};
ghost use Rattle.convoy_origin.specs.FromOriginLaws.{StampFromOriginHolds};

use crate::widened_laws::{
    leads_of_widened, plain_bound_of_widened, stamp_bound_of_widened, widened_region_is_itself,
};
use convoy_scenario::widened_laws::widened_is_itself;
use convoy_stamps::stamp_bound_laws::stamp_bound_at_most_plain;

/// No latency in a region is greater than the plain bound of its ranges.
#[tactic(auto, unfolding(crate::specs::FromOrigin::plain_from_origin))]
pub fn plain_from_origin_holds()
    ensures { PlainFromOriginHolds }
{
    plain_bound_of_widened();
}

/// No latency in a region is greater than the stamp bound of its ranges.
#[tactic(auto, unfolding(crate::specs::FromOrigin::stamp_from_origin))]
pub fn stamp_from_origin_holds()
    ensures { StampFromOriginHolds }
{
    stamp_bound_of_widened();
}

/// No latency in a region is greater than one for which leads close the region.
#[tactic(auto, unfolding(crate::specs::FromOrigin::closes_from_origin))]
pub fn leads_from_origin_hold()
    ensures { LeadsFromOriginHold }
{
    leads_of_widened();
}

/// The stamp bound of a box is at most its plain bound.
#[tactic(auto, unfolding(crate::specs::FromOrigin::plain_from_origin, crate::specs::FromOrigin::stamp_from_origin))]
pub fn stamp_at_most_plain_from_origin()
    ensures { StampAtMostPlainFromOrigin }
{
    stamp_bound_at_most_plain();
}

/// Where the target does not wait, these are the bounds from the one tick at which it is issued.
pub fn from_origin_is_from_issue()
    ensures { FromOriginIsFromIssue }
{
    widened_is_itself();
    widened_region_is_itself();
}
