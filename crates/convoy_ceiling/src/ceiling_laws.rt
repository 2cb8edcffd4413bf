//! What holds of ceilings. Each law is the one clause of a function that does nothing; a caller that
//! needs the law calls the function.

ghost use Rattle.convoy_ceiling.specs.Ceiling.{
  CeilingBelowFourDelays,
  CeilingHolds,
  CeilingHoldsForAnyKinds,
  CeilingHoldsInFinerTicks,
  CeilingIsUpper,
  CeilingWithinFourDelays,
};
ghost use Rattle.convoy_ceiling.specs.Targets.{CeilingBoundsTraffic, OwnKindsAreTraffic};

use convoy_packets::schedule_laws::{
    delays_are_within, fixed_order_is_order, unsent_takes_no_time,
};
use convoy_scenario::scenario_laws::homes_decide_what_takes_time;
use convoy_sim::protocol_laws::traffic_delivery_bound;

/// In traffic of a scenario's kinds of messages, of any number and issued at any ticks, no message has a
/// latency above the ceiling of its kind: whatever the delays are in their ranges, however long messages
/// wait for their issue, in whatever order ties fall, and in both kinds of time.
pub fn ceiling_holds()
    ensures { CeilingHolds }
{
    ceiling_holds_in_finer_ticks();
}

/// Nor has one in ticks that are a number of times as fine, in which the ceiling is as many times the
/// number. So it holds for times that are any parts of a tick, as in real time.
pub fn ceiling_holds_in_finer_ticks()
    ensures { CeilingHoldsInFinerTicks }
{
    traffic_delivery_bound();
    delays_are_within();
    fixed_order_is_order();
    unsent_takes_no_time();
    homes_decide_what_takes_time();
}

/// The same of kinds of messages of any number, each of which goes to one or more of the groups: they need not be those of a
/// scenario, which has few.
pub fn ceiling_holds_for_any_kinds()
    ensures { CeilingHoldsForAnyKinds }
{
    traffic_delivery_bound();
    delays_are_within();
    fixed_order_is_order();
    unsent_takes_no_time();
    homes_decide_what_takes_time();
}

/// No latency of a scenario is above its ceiling. So the greatest one, which a search looks for, is not.
pub fn ceiling_is_upper()
    ensures { CeilingIsUpper }
{
    ceiling_holds();
}

/// No ceiling is above 4 D.
#[tactic(auto, using(crate::proofs::FourDelays::within_four))]
pub fn ceiling_within_four_delays()
    ensures { CeilingWithinFourDelays }
{}

/// At a group to which each message takes time each ceiling is below 4 D: the group sends none of those that go to it, or
/// it has a link to itself.
#[tactic(auto, using(crate::proofs::FourDelays::below_four))]
pub fn ceiling_below_four_delays()
    ensures { CeilingBelowFourDelays }
{}

/// Each scenario is traffic of its own kinds of messages, in which the same is asked.
pub fn own_kinds_are_traffic()
    ensures { OwnKindsAreTraffic }
{}

/// In traffic that asks the same as a scenario no latency is above the scenario's ceiling.
pub fn ceiling_bounds_traffic()
    ensures { CeilingBoundsTraffic }
{
    ceiling_holds();
}
